// A key in numbers, and the row of numbers that it has among all keys of its strip.
ghost use Rattle.std.specs.Prelude.{◌≡◌};
ghost use Rattle.strip.specs.Numbers.{number_of};
ghost use Rattle.blocks.specs.Kind.{kind_of};
ghost use Rattle.strip_reader.specs.Answers.{key_numbers, kind_number};
ghost use Rattle.strip_reader.specs.Rows.{row_of, row_put};

use crate::key::{BoneKey, StripKey};
use blocks::kind::Kind;

// Kind, track and place, and the numbers of the key.
pub const ROW: usize = 16;

#[tactic(auto, using(crate::proofs::RowNumbers::curve_numbers))]
fn curve_number(curve: [u8; 4]) -> u32
    ensures { result ≡ number_of curve }
{
    u32::from_le_bytes(curve)
}

fn bone_numbers(key: BoneKey) -> [u32; 13]
    ensures { result ≡ key_numbers (StripKey.Bone key) }
{
    let [x, y, z] = key.pose_bits.translation;
    let [i, j, k, w] = key.pose_bits.orientation;
    let [curve_x, curve_y, curve_z, rotation] = key.curves;
    [
        key.frame,
        u32::from(key.map),
        x,
        y,
        z,
        i,
        j,
        k,
        w,
        curve_number(curve_x),
        curve_number(curve_y),
        curve_number(curve_z),
        curve_number(rotation),
    ]
}

impl StripKey {
    pub fn numbers(self) -> [u32; 13]
        ensures { result ≡ key_numbers self }
    {
        match self {
            StripKey::Bone(key) => bone_numbers(key),
            StripKey::Morph(key) => [
                key.frame,
                u32::from(key.map),
                key.weight_bits,
                0,
                0,
                0,
                0,
                0,
                0,
                0,
                0,
                0,
                0,
            ],
        }
    }
}

fn kind_number(kind: Kind) -> u32
    ensures { result ≡ kind_number (kind_of kind) }
{
    match kind {
        Kind::Bone => 0,
        Kind::Morph => 1,
    }
}

pub fn row(kind: Kind, track: u32, place: u32, key: StripKey) -> [u32; ROW]
    ensures { result ≡ row_of (kind_of kind) track place key }
{
    let mut row = [0; ROW];
    row[0] = kind_number(kind);
    row[1] = track;
    row[2] = place;
    row[3..].copy_from_slice(&key.numbers());
    row
}

// The row of a key by its number in the strip: from the first number asked for on, as far as whole rows fit.
pub fn put_row(rows: &mut [u32], first: usize, number: usize, row: [u32; ROW])
    ensures { rows.new ≡ row_put first number row rows.old }
{
    if number < first || rows.len() / ROW <= number - first {
        return;
    }
    let start = (number - first) * ROW;
    rows[start..start + ROW].copy_from_slice(&row);
}
