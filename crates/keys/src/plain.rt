// Which groups of a key's fields are plain, and the map byte that says so (document 01, "The strip"). Floats are compared as
// floats: -0 equals 0, and a NaN equals nothing.
ghost use Rattle.std.specs.Prelude.{◌≡◌, ◌&&◌, cond, [], ◌+◌, ◌≤◌, ◌<◌, length};
ghost use Rattle.std.specs.Float.Ieee.{eq};
ghost use Rattle.layout.specs.Numbers.{float};
ghost use Rattle.records.specs.Curves.{curve_at};
ghost use Rattle.clip.specs.Section.{bone_body};
ghost use Rattle.strip.specs.Plain.{one, plain_curve, plain_bytes, clamped};
ghost use Rattle.keys.specs.Plain.{bone_plain, standing};

use crate::body::BoneBody;
use binary::numbers;
use records::pose::Pose;

// The bytes 20, 20, 107, 107.
const PLAIN_CURVE: u32 = 0x6b6b_1414;

// Where the rotation's curve begins.
const ROTATION: usize = 12;

// The bit of each group in the map byte, and how many bytes its fields have.
const TRANSLATION_BIT: u8 = 1;

const ORIENTATION_BIT: u8 = 2;

const CURVES_BIT: u8 = 4;

const ROTATION_BIT: u8 = 8;

const TRANSLATION_WIDTH: u8 = 12;

const ORIENTATION_WIDTH: u8 = 16;

const CURVES_WIDTH: u8 = 12;

const ROTATION_WIDTH: u8 = 4;

// Of a morph's one group, its weight.
pub const WEIGHT_BIT: u8 = 1;

pub const WEIGHT_WIDTH: u8 = 4;

// A group for each bit, in the order of the bits.
#[derive(Clone, Copy)]
pub struct BonePlain {
    pub translation: bool,
    pub orientation: bool,
    pub curves: bool,
    pub rotation: bool,
}

fn zeros(x: f32, y: f32, z: f32) -> bool
    ensures { result ≡ eq x (float 0) && eq y (float 0) && eq z (float 0) }
{
    (x == 0.0) & (y == 0.0) & (z == 0.0)
}

fn plain_translation(pose: Pose) -> bool
    ensures { result ≡ eq pose.translation_x (float 0) && eq pose.translation_y (float 0) && eq pose.translation_z (float 0) }
{
    zeros(pose.translation_x, pose.translation_y, pose.translation_z)
}

fn plain_orientation(pose: Pose) -> bool
    ensures { result ≡ eq pose.orientation_x (float 0) && eq pose.orientation_y (float 0) && eq pose.orientation_z (float 0) && eq pose.orientation_w (float one) }
{
    let w = pose.orientation_w;
    zeros(pose.orientation_x, pose.orientation_y, pose.orientation_z) & (w == 1.0)
}

// A curve is compared as one number. The bytes of a plain one are below 127, so it need not be clamped before.
#[tactic(auto, using(crate::proofs::Groups::plain_word))]
fn plain_curve(s: &[u8], at: usize) -> bool
    requires { at + 4 ≤ length s.now }
    ensures { result ≡ plain_bytes plain_curve (clamped (curve_at s.now at)) }
{
    numbers::u32_at(s, at) == PLAIN_CURVE
}

// The x, y and z curves.
fn plain_curves(s: &[u8], at: usize) -> bool
    requires { at + 12 ≤ length s.now }
    ensures { result ≡ plain_bytes plain_curve (clamped (curve_at s.now at)) && plain_bytes plain_curve (clamped (curve_at s.now (at + 4))) && plain_bytes plain_curve (clamped (curve_at s.now (at + 8))) }
{
    plain_curve(s, at) & plain_curve(s, at + 4) & plain_curve(s, at + 8)
}

// `n`, unless the group is plain.
pub fn unless(plain: bool, n: u8) -> u8
    ensures { result ≡ cond plain 0 n }
{
    if plain { 0 } else { n }
}

impl BonePlain {
    // The sum of one number for each group that is not plain.
    #[tactic(auto, using(crate::proofs::Groups::at_most))]
    fn standing(self, translation: u8, orientation: u8, curves: u8, rotation: u8) -> u8
        requires { translation + orientation + curves + rotation < 256 }
        ensures { result ≡ standing translation orientation curves rotation self }
    {
        let a = unless(self.translation, translation);
        let b = unless(self.orientation, orientation);
        let c = unless(self.curves, curves);
        let d = unless(self.rotation, rotation);
        a + b + c + d
    }

    pub fn map_byte(self) -> u8
        ensures { result ≡ standing 1 2 4 8 self }
    {
        self.standing(TRANSLATION_BIT, ORIENTATION_BIT, CURVES_BIT, ROTATION_BIT)
    }

    // How many bytes follow the map byte.
    pub fn width(self) -> u8
        ensures { result ≡ standing 12 16 12 4 self }
    {
        self.standing(
            TRANSLATION_WIDTH,
            ORIENTATION_WIDTH,
            CURVES_WIDTH,
            ROTATION_WIDTH,
        )
    }
}

impl<'a> BoneBody<'a> {
    #[tactic(auto, using(crate::proofs::Groups::groups))]
    pub fn plain(&self) -> BonePlain
        ensures { result ≡ bone_plain (bone_body self.now.section.now self.now.at) }
    {
        let pose = self.pose();
        let translation = plain_translation(pose);
        let orientation = plain_orientation(pose);
        let curves = plain_curves(self.section, self.at);
        let rotation = plain_curve(self.section, self.at + ROTATION);
        BonePlain {
            translation,
            orientation,
            curves,
            rotation,
        }
    }
}
