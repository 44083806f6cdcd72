// A key read for its frame and where the next one stands.
ghost use Rattle.std.specs.Prelude.{◌≡◌, drop};
ghost use Rattle.blocks.specs.Kind.{kind_of};
ghost use Rattle.strip_reader.specs.Key.{form_of, key};
ghost use Rattle.strip_reader.specs.Pass.{frame_read, for_frame};

use crate::front::Read;
use crate::{bone_key, morph_key};
use blocks::kind::Kind;

fn bone_frame(strip: &[u8], at: usize) -> Read<u32>
    ensures { frame_read strip.now result ≡ for_frame (key (form_of (kind_of Kind.Bone)) (drop at strip.now)) }
{
    let (key, next) = bone_key::read_bone_key(strip, at)?;
    Ok((key.frame, next))
}

fn morph_frame(strip: &[u8], at: usize) -> Read<u32>
    ensures { frame_read strip.now result ≡ for_frame (key (form_of (kind_of Kind.Morph)) (drop at strip.now)) }
{
    let (key, next) = morph_key::read_morph_key(strip, at)?;
    Ok((key.frame, next))
}

pub fn read_frame(kind: Kind, strip: &[u8], at: usize) -> Read<u32>
    ensures { frame_read strip.now result ≡ for_frame (key (form_of (kind_of kind)) (drop at strip.now)) }
{
    match kind {
        Kind::Bone => bone_frame(strip, at),
        Kind::Morph => morph_frame(strip, at),
    }
}
