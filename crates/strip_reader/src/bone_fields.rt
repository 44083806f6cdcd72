// The fields of a bone key, each with the bytes of its group.
ghost use Rattle.std.specs.Prelude.{◌≡◌, [], ◌∷◌, ◌++◌, drop};
ghost use Rattle.strip.specs.Plain.{bone_groups};
ghost use Rattle.clip.specs.Fields.{bone};
ghost use Rattle.strip_reader.specs.Key.{form_of};
ghost use Rattle.strip_reader.specs.Reads.{known_fields};
ghost use Rattle.strip_reader.specs.Bone.{standing_fields, bone_fields_read};

use crate::front;
use crate::front::Read;
use crate::refusal::ReaderRefusal;
use keys::fields;

// An orientation of 0, 0, 0, 1.
const ORIENTATION: [u8; 16] = [0, 0, 0, 0, 0, 0, 0, 0, 0, 0, 0, 0, 0, 0, 128, 63];

const CURVE: [u8; 4] = [20, 20, 107, 107];

const CURVES: [u8; 12] = [20, 20, 107, 107, 20, 20, 107, 107, 20, 20, 107, 107];

#[derive(Clone, Copy)]
pub struct BoneFields {
    pub translation: [u8; 12],
    pub orientation: [u8; 16],
    pub curves: [u8; 12],
    pub rotation: [u8; 4],
}

// Each group is read where its bit stands.
#[tactic(auto, unfolding(crate::specs::Bone::standing_fields, strip::specs::Plain::floats, strip::specs::Numbers::little_endian))]
fn read_standing(
    strip: &[u8],
    at: usize,
    translation: bool,
    orientation: bool,
    curves: bool,
    rotation: bool,
) -> Read<BoneFields>
    ensures { bone_fields_read strip.now result ≡ standing_fields bone_groups (translation ∷ orientation ∷ curves ∷ rotation ∷ []) (drop at strip.now) }
{
    let (translation, next) = front::read_field(strip, at, translation, [0; 12])?;
    let (orientation, next) = front::read_field(strip, next, orientation, ORIENTATION)?;
    let (curves, next) = front::read_field(strip, next, curves, CURVES)?;
    let (rotation, next) = front::read_field(strip, next, rotation, CURVE)?;
    Ok((
        BoneFields {
            translation,
            orientation,
            curves,
            rotation,
        },
        next,
    ))
}

// "A map byte names which fields follow and how long the key is" (document 01, "Forms by place in the code").
pub fn read_fields(strip: &[u8], at: usize, map: u8) -> Read<BoneFields>
    ensures { bone_fields_read strip.now result ≡ known_fields (form_of bone) map (drop at strip.now) }
{
    match map {
        0 => read_standing(strip, at, false, false, false, false),
        1 => read_standing(strip, at, true, false, false, false),
        2 => read_standing(strip, at, false, true, false, false),
        3 => read_standing(strip, at, true, true, false, false),
        4 => read_standing(strip, at, false, false, true, false),
        5 => read_standing(strip, at, true, false, true, false),
        6 => read_standing(strip, at, false, true, true, false),
        7 => read_standing(strip, at, true, true, true, false),
        8 => read_standing(strip, at, false, false, false, true),
        9 => read_standing(strip, at, true, false, false, true),
        10 => read_standing(strip, at, false, true, false, true),
        11 => read_standing(strip, at, true, true, false, true),
        12 => read_standing(strip, at, false, false, true, true),
        13 => read_standing(strip, at, true, false, true, true),
        14 => read_standing(strip, at, false, true, true, true),
        15 => read_standing(strip, at, true, true, true, true),
        16..=255 => Err(ReaderRefusal::UnknownMap),
    }
}

impl BoneFields {
    // As the body of a record: interpolation, translation, orientation.
    pub fn body(&self) -> [u8; 44]
        ensures { result ≡ self.now.curves ++ self.now.rotation ++ self.now.translation ++ self.now.orientation }
    {
        let mut body = [0; 44];
        let rotation = fields::put(&self.curves, &mut body, 0);
        let translation = fields::put(&self.rotation, &mut body, rotation);
        let orientation = fields::put(&self.translation, &mut body, translation);
        fields::put(&self.orientation, &mut body, orientation);
        body
    }
}
