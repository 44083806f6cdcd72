// One key's bytes in a strip (document 01, "The strip"): a bone key is frame u32 and a map byte, then only the fields whose bit
// stands; a morph key likewise.
ghost use Rattle.std.specs.Prelude.{◌≡◌, ◌+◌, ◌≤◌, length};
ghost use Rattle.strip.specs.Numbers.{little_endian};
ghost use Rattle.keys.specs.Placed.{placed, Room, Wrote, head_bytes, bone_key_bytes, weight_key_bytes};
ghost use Rattle.std.specs.Float.{NotNan};

use crate::body::BoneBody;
use crate::{fields, plain};

// The bytes before the fields: frame u32 and map byte.
const HEAD: usize = 5;

#[tactic(auto, using(crate::proofs::Stores::stores))]
pub fn write_count(output: &mut [u8], place: usize, n: usize)
    requires { place + 2 ≤ length output.old }
    ensures { output.new ≡ placed place (little_endian 2 n) output.old }
{
    let bytes = n.to_le_bytes();
    fields::put(&bytes[..2], output, place);
}

fn write_head(output: &mut [u8], place: usize, frame: u32, map: u8) -> usize
    requires { Room place (head_bytes frame map) output.old }
    ensures { Wrote place (head_bytes frame map) output.old result output.new }
{
    let next = fields::put(&frame.to_le_bytes(), output, place);
    fields::put(&[map], output, next)
}

impl<'a> BoneBody<'a> {
    // As long for every frame.
    #[tactic(auto, using(crate::proofs::Lengths::lengths))]
    pub fn key_length(&self) -> usize
        ensures { result ≡ length (bone_key_bytes self.now.section.now self.now.at 0) }
    {
        let fields = self.plain().width();
        HEAD + fields as usize
    }

    pub fn write_key(&self, frame: u32, output: &mut [u8], place: usize) -> usize
        requires { Room place (bone_key_bytes self.now.section.now self.now.at frame) output.old }
        ensures { Wrote place (bone_key_bytes self.now.section.now self.now.at frame) output.old result output.new }
    {
        let plain = self.plain();
        let map = plain.map_byte();
        let pose = write_head(output, place, frame, map);
        let next = plain.write_pose(self, output, pose);
        plain.write_curves(self.curves(), output, next)
    }
}

// A morph key by its value. The bytes of a weight that was read and is finite are those of its record.
pub fn morph_key_length(weight: f32) -> usize
    ensures { result ≡ length (weight_key_bytes 0 weight) }
{
    let fields = plain::unless(weight == 0.0, plain::WEIGHT_WIDTH);
    HEAD + fields as usize
}

pub fn write_morph_key(frame: u32, weight: f32, output: &mut [u8], place: usize) -> usize
    requires number { NotNan weight }
    requires room { Room place (weight_key_bytes frame weight) output.old }
    ensures { Wrote place (weight_key_bytes frame weight) output.old result output.new }
{
    let plain = weight == 0.0;
    let map = plain::unless(plain, plain::WEIGHT_BIT);
    let next = write_head(output, place, frame, map);
    fields::put_unless(plain, &weight.to_bits().to_le_bytes(), output, next)
}
