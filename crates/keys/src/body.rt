// The body of a record, behind its links, that stands whole in the lent section: "interpolation 16 bytes, translation 3 f32,
// orientation 4 f32", or "weight f32".
ghost use Rattle.std.specs.Prelude.{◌≡◌, ◌+◌, ◌≤◌, length};
ghost use Rattle.layout.specs.Numbers.{float};
ghost use Rattle.clip.specs.Keys.{finite, float_at, posed};
ghost use Rattle.clip.specs.Section.{bone_body, morph_body};
ghost use Rattle.keys.specs.Answers.{FiniteWeight};

use binary::numbers;
use records::pose;
use records::pose::Pose;

// Where the translation and the orientation begin.
const TRANSLATION: usize = 16;

const ORIENTATION: usize = 28;

#[derive(Clone, Copy)]
pub struct BoneBody<'a> {
    pub section: &'a [u8],
    pub at: usize,
    ghost whole: { at + 44 ≤ length section.now },
}

#[derive(Clone, Copy)]
pub struct MorphBody<'a> {
    pub section: &'a [u8],
    pub at: usize,
    ghost whole: { at + 4 ≤ length section.now },
}

#[tactic(auto, unfolding(clip::specs::Section::bone_body))]
impl<'a> BoneBody<'a> {
    pub fn translation(&self) -> [u8; 12]
        ensures { result ≡ (bone_body self.now.section.now self.now.at).translation }
    {
        numbers::bytes(self.section, self.at + TRANSLATION)
    }

    pub fn orientation(&self) -> [u8; 16]
        ensures { result ≡ (bone_body self.now.section.now self.now.at).orientation }
    {
        numbers::bytes(self.section, self.at + ORIENTATION)
    }

    #[tactic(auto, using(crate::proofs::Bodies::posed_is))]
    pub fn pose(&self) -> Pose
        ensures { result ≡ posed (bone_body self.now.section.now self.now.at) }
    {
        Pose::from(pose::pose_at(self.section, self.at + TRANSLATION))
    }
}

// In the 32 bits of a float: the one of its sign, the least one of its exponent, and an exponent whose bits are all 1.
const SIGN: u32 = 2147483648;

const MANTISSA: u32 = 8388608;

const ALL_ONES: u32 = 255;

// Whether the float of 32 bits is finite: the bits of its exponent are not all 1.
#[tactic(auto, using(crate::proofs::Finite::bits))]
fn finite_bits(bits: u32) -> bool
    ensures { result ≡ finite (float bits) }
{
    bits % SIGN / MANTISSA != ALL_ONES
}

impl<'a> MorphBody<'a> {
    // The weight, if it is finite. Its bits tell that before they are a float: no NaN need be looked for then.
    pub fn finite_weight(&self) -> Option<f32>
        ensures { FiniteWeight (float_at (morph_body self.now.section.now self.now.at) 0) result }
    {
        let bits = numbers::u32_at(self.section, self.at);
        if finite_bits(bits) {
            Some(f32::from_bits(bits))
        } else {
            None
        }
    }
}
