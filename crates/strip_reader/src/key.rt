// A key of a strip, as it is answered.
ghost use Rattle.std.specs.Prelude.{◌≡◌, List, ℕ, length, drop};
ghost use Rattle.strip.specs.Strip.{FieldsKey};
ghost use Rattle.blocks.specs.Kind.{kind_of};
ghost use Rattle.strip_reader.specs.Key.{form_of, key};
ghost use Rattle.strip_reader.specs.Stands.{KeysAt, key_read, key_told};
ghost use Rattle.strip_reader.specs.Tracks.{TellsKey};
ghost use Rattle.strip_reader.specs.Run.{KeyCall};

use crate::front::Read;
use crate::refusal::ReaderRefusal;
use crate::{bone_key, find, judge, morph_key, track};
use blocks::kind::Kind;
use blocks::track::TrackIndex;
use records::pose::PoseBits;

#[derive(Clone, Copy)]
pub struct BoneKey {
    pub frame: u32,
    pub map: u8,
    pub pose_bits: PoseBits,
    pub curves: [[u8; 4]; 4],
}

#[derive(Clone, Copy)]
pub struct MorphKey {
    pub frame: u32,
    pub map: u8,
    pub weight_bits: u32,
}

#[derive(Clone, Copy)]
pub enum StripKey {
    Bone(BoneKey),
    Morph(MorphKey),
}

fn read_bone(strip: &[u8], at: usize) -> Read<StripKey>
    ensures { key_read strip.now result ≡ key_told (kind_of Kind.Bone) (key (form_of (kind_of Kind.Bone)) (drop at strip.now)) }
{
    let (key, next) = bone_key::read_bone_key(strip, at)?;
    Ok((StripKey::Bone(key.told()), next))
}

fn read_morph(strip: &[u8], at: usize) -> Read<StripKey>
    ensures { key_read strip.now result ≡ key_told (kind_of Kind.Morph) (key (form_of (kind_of Kind.Morph)) (drop at strip.now)) }
{
    let (key, next) = morph_key::read_morph_key(strip, at)?;
    Ok((StripKey::Morph(key.told()), next))
}

pub fn read_key(kind: Kind, strip: &[u8], at: usize) -> Read<StripKey>
    ensures { key_read strip.now result ≡ key_told (kind_of kind) (key (form_of (kind_of kind)) (drop at strip.now)) }
{
    match kind {
        Kind::Bone => read_bone(strip, at),
        Kind::Morph => read_morph(strip, at),
    }
}

// Of the keys of a track that stand at a position.
#[tactic(auto, using(crate::proofs::KeyFound::in_track))]
fn key_in_track(
    kind: Kind,
    strip: &[u8],
    first: usize,
    count: u32,
    place: usize,
) -> Result<StripKey, ReaderRefusal>
    ensures { (ks : List FieldsKey) (behind : List ℕ) → KeysAt (form_of (kind_of kind)) ks (drop first strip.now) behind → length ks ≡ count → TellsKey (kind_of kind) ks place result }
{
    let Ok(before) = u32::try_from(place) else {
        return Err(ReaderRefusal::Absent);
    };
    if count <= before {
        return Err(ReaderRefusal::Absent);
    }
    match find::skip_keys(kind, strip, first, before) {
        Some(at) => match read_key(kind, strip, at) {
            Ok((key, _)) => Ok(key),
            Err(why) => Err(why),
        },
        None => Err(ReaderRefusal::Absent),
    }
}

#[tactic(auto, using(crate::proofs::KeyFound::in_strip))]
pub fn key(strip: &[u8], track: TrackIndex, place: usize) -> Result<StripKey, ReaderRefusal>
    ensures { KeyCall strip.now track place result }
{
    let at = track::find_track(strip, track)?;
    match judge::read_count(strip, at) {
        Ok((count, first)) => { key_in_track(track.kind(), strip, first, u32::from(count), place) }
        Err(why) => Err(why),
    }
}
