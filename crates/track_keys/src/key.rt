// What is asked of one key of a track: 10, 11, and what is asked of its body.
ghost use Rattle.std.specs.Prelude.{◌≡◌};
ghost use Rattle.blocks.specs.Kind.{kind_of};
ghost use Rattle.blocks.specs.Track.{kind_of_track, number_of_track};
ghost use Rattle.blocks.specs.Fault.{met_read};
ghost use Rattle.track_keys.specs.Keys.{frame_meets, key_meets};
ghost use Rattle.track_keys.specs.MorphKeys.{morph_key_read, morph_key};
ghost use Rattle.blocks.specs.declared.kind.Kind.{Kind};

use blocks::fault::Fault;
use blocks::key::Key;
use blocks::track::{BoneIndex, MorphIndex, TrackIndex};
use keys::body::{BoneBody, MorphBody};
use keys::pose::PoseFault;

// Document 01: a morph key is answered as its frame and weight, or as the refusal that it met. An enum of its own, as document 01 names it
// ("Forms by place in the code").
#[derive(Clone, Copy)]
pub enum MorphKey {
    Key(u32, f32),
    Refused(Fault),
}

fn frame_asked(track: TrackIndex, frame: u32, repeated: bool) -> Result<(), Fault>
    ensures { met_read result ≡ frame_meets (kind_of (kind_of_track track)) (number_of_track track) frame repeated }
{
    let signed = frame.cast_signed();
    if signed < 0 {
        return Err(Fault::NegativeFrame(track, signed));
    }
    if repeated {
        return Err(Fault::RepeatedFrame(track, signed));
    }
    Ok(())
}

// Inlined, as `key` is, so that a key with nothing against it needs no answer in memory.
#[inline(always)]
fn bone_key(body: &BoneBody, track: BoneIndex, frame: u32, repeated: bool) -> Result<(), Fault>
    ensures { met_read result ≡ key_meets body.now.section.now Kind.Bone track.0 frame body.now.at repeated }
{
    frame_asked(TrackIndex::Bone(track), frame, repeated)?;
    // Tried by `map_err`: the check reads the arms as they stand; of the closure it would need a proof by hand.
    match body.asked() {
        Ok(()) => Ok(()),
        Err(PoseFault::Translation) => Err(Fault::InvalidTranslation(track, frame.cast_signed())),
        Err(PoseFault::Orientation) => Err(Fault::InvalidOrientation(track, frame.cast_signed())),
    }
}

pub fn morph_key(body: &MorphBody, track: MorphIndex, frame: u32, repeated: bool) -> MorphKey
    ensures { morph_key_read result ≡ morph_key body.now.section.now track.0 frame body.now.at repeated }
{
    if let Err(fault) = frame_asked(TrackIndex::Morph(track), frame, repeated) {
        return MorphKey::Refused(fault);
    }
    match body.finite_weight() {
        Some(weight) => MorphKey::Key(frame, weight),
        None => MorphKey::Refused(Fault::InvalidWeight(track, frame.cast_signed())),
    }
}

// A body is made where it is asked, here and in writing: an enum of the two would be matched at once again.
#[inline(always)]
pub fn key(key: &Key, track: TrackIndex, repeated: bool) -> Result<(), Fault>
    requires { kind_of_track track ≡ key.now.kind }
    ensures { met_read result ≡ key_meets key.now.section.now key.now.kind (number_of_track track) key.now.frame key.now.at repeated }
{
    let section = key.section;
    let at = key.at;
    match track {
        TrackIndex::Bone(bone) => bone_key(&BoneBody { section, at }, bone, key.frame, repeated),
        TrackIndex::Morph(morph) => {
            match morph_key(&MorphBody { section, at }, morph, key.frame, repeated) {
                MorphKey::Key(_, _) => Ok(()),
                MorphKey::Refused(fault) => Err(fault),
            }
        }
    }
}
