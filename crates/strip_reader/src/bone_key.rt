// A bone key read, with what 25 asks of it.
ghost use Rattle.std.specs.Prelude.{◌≡◌, drop, IfOk};
ghost use Rattle.clip.specs.Fields.{bone};
ghost use Rattle.strip.specs.Plain.{bone_groups};
ghost use Rattle.strip.specs.Keys.{map_byte};
ghost use Rattle.strip_reader.specs.Key.{form_of, not_of_builder, some_byte_above, key};
ghost use Rattle.strip_reader.specs.Bone.{fields_of, bone_field_key, bone_key_read, bone_key_of};

use crate::bone_fields::BoneFields;
use crate::front::Read;
use crate::key::BoneKey;
use crate::refusal::ReaderRefusal;
use crate::{bone_fields, front};
use keys::body::BoneBody;
use records::{curves, pose};

// The highest byte of a curve.
const TOP: u8 = 127;

// A key as it stands in a strip, absent fields filled in.
#[derive(Clone, Copy)]
pub struct BoneKeyFields {
    pub frame: u32,
    pub map: u8,
    pub fields: BoneFields,
}

fn some_above_top(bytes: &[u8]) -> bool
    ensures { result ≡ some_byte_above 127 bytes.now }
{
    bytes.iter().any(|byte| TOP < *byte)
}

impl BoneKeyFields {
    // As it is answered.
    pub fn told(&self) -> BoneKey
        ensures { result ≡ bone_key_of self.now }
    {
        let body = self.fields.body();
        BoneKey {
            frame: self.frame,
            map: self.map,
            pose_bits: pose::pose_at(&body, 16),
            curves: curves::curves_at(&body, 0),
        }
    }

    // 25 at the end of the key.
    #[tactic(auto, using(crate::proofs::BoneKeys::tested))]
    fn not_of_builder(&self) -> bool
        ensures { result ≡ not_of_builder (form_of bone) self.now.map (bone_field_key self.now) }
    {
        let section = self.fields.body();
        let body = BoneBody {
            section: &section,
            at: 0,
        };
        let other_map = body.plain().map_byte() != self.map;
        let above_top = some_above_top(&section[..16]);
        let pose_refused = body.asked().is_err();
        other_map | above_top | pose_refused | (front::LAST_FRAME < self.frame)
    }
}

#[tactic(auto, using(crate::proofs::Keys::key_read))]
pub fn read_bone_key(strip: &[u8], at: usize) -> Read<BoneKeyFields>
    ensures is { bone_key_read strip.now result ≡ key (form_of bone) (drop at strip.now) }
    ensures map { IfOk result (λ read. read.0.map ≡ map_byte bone_groups (fields_of read.0.fields)) }
{
    let (frame, map, next) = front::read_head(strip, at)?;
    let (fields, next) = bone_fields::read_fields(strip, next, map)?;
    let key = BoneKeyFields { frame, map, fields };
    if key.not_of_builder() {
        return Err(ReaderRefusal::NeverWritten);
    }
    Ok((key, next))
}
