// One pass over the keys of a track. Whether a frame is repeated is not asked; whether the frames rise is told.
ghost use Rattle.blocks.specs.Kind.{kind_of};
ghost use Rattle.strip_reader.specs.Key.{form_of};
ghost use Rattle.strip_reader.specs.Pass.{PassesKeys};

use crate::frame;
use crate::refusal::ReaderRefusal;
use blocks::kind::Kind;

// The position behind the keys, or the refusal that one met; how many were read; whether their frames rise.
#[derive(Clone, Copy)]
pub struct KeysPass {
    pub end: Result<usize, ReaderRefusal>,
    pub read: u32,
    pub rise: bool,
}

pub fn pass_keys(kind: Kind, strip: &[u8], at: usize, count: u32) -> KeysPass
    ensures { PassesKeys (form_of (kind_of kind)) count strip.now at result }
{
    let mut next = at;
    let mut least = 0;
    let mut rise = true;
    'keys: for read in 0..count {
        match frame::read_frame(kind, strip, next) {
            Ok((frame, behind)) => {
                rise &= least <= u64::from(frame);
                least = u64::from(frame) + 1;
                next = behind;
            }
            Err(why) => {
                return KeysPass {
                    end: Err(why),
                    read,
                    rise,
                };
            }
        }
    }
    KeysPass {
        end: Ok(next),
        read: count,
        rise,
    }
}
