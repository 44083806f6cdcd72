// A key's bytes in a strip, of either kind.
ghost use Rattle.std.specs.Prelude.{◌≡◌, ◌+◌, ◌≤◌, length};
ghost use Rattle.std.specs.Float.{NotNan};
ghost use Rattle.keys.specs.Placed.{Room, Wrote, morph_key_bytes, weight_key_bytes};
ghost use Rattle.track_keys.specs.Fine.{KeyFine};
ghost use Rattle.writing.specs.Key.{Accepted, bytes_of};
ghost use Rattle.blocks.specs.declared.kind.Kind.{Kind};

use blocks::key::Key;
use blocks::track::{MorphIndex, TrackIndex};
use keys::body::{BoneBody, MorphBody};
use keys::write;
use track_keys::key;
use track_keys::key::MorphKey;

// A morph's key as document 01 has it answered ("Forms by place in the code"): its frame and weight, and no refusal, since the clip was
// accepted. They are measured and written, and not the record's bytes. The section is told apart from the key: of a slice that is an
// argument the check knows that its bytes are below 256, which gives the weight's bits back.
#[inline(always)]
fn morph_value(section: &[u8], at: usize, frame: u32, morph: MorphIndex) -> (u32, f32)
    requires whole { at + 4 ≤ length section.now }
    requires fine { KeyFine section.now Kind.Morph morph.0 (record { frame = frame; body = at }) }
    ensures number { NotNan result.1 }
    ensures bytes { weight_key_bytes result.0 result.1 ≡ morph_key_bytes section.now at frame }
{
    let body = MorphBody { section, at };
    let MorphKey::Key(frame, weight) = key::morph_key(&body, morph, frame, false) else {
        unreachable!()
    };
    (frame, weight)
}

#[tactic(auto, using(crate::proofs::OfKind::keys))]
pub fn key_length(key: &Key, track: TrackIndex) -> usize
    requires { Accepted key.now track }
    ensures { result ≡ length (bytes_of key.now) }
{
    let section = key.section;
    let at = key.at;
    match track {
        TrackIndex::Bone(_) => BoneBody { section, at }.key_length(),
        TrackIndex::Morph(morph) => {
            let (_, weight) = morph_value(section, at, key.frame, morph);
            write::morph_key_length(weight)
        }
    }
}

// Inlined, so that a key need not stand in memory for the call.
#[inline(always)]
#[tactic(auto, using(crate::proofs::OfKind::keys))]
pub fn write_key(key: &Key, track: TrackIndex, output: &mut [u8], place: usize) -> usize
    requires accepted { Accepted key.now track }
    requires room { Room place (bytes_of key.now) output.old }
    ensures { Wrote place (bytes_of key.now) output.old result output.new }
{
    let section = key.section;
    let at = key.at;
    match track {
        TrackIndex::Bone(_) => BoneBody { section, at }.write_key(key.frame, output, place),
        TrackIndex::Morph(morph) => {
            let (frame, weight) = morph_value(section, at, key.frame, morph);
            write::write_morph_key(frame, weight, output, place)
        }
    }
}
