// Whether two keys of a track have the same frame, where its frames do not rise.
ghost use Rattle.std.specs.Prelude.{◌≡◌, ◌<◌, length, drop};
ghost use Rattle.blocks.specs.Kind.{kind_of};
ghost use Rattle.strip_reader.specs.Key.{form_of};
ghost use Rattle.strip_reader.specs.Skip.{frames};
ghost use Rattle.strip_reader.specs.Repeated.{told, pass, repeats, nothing};

use crate::collected::Collected;
use crate::skip;
use blocks::kind::Kind;

// What a pass over a track's frames tells of those that it did not pass over.
#[derive(Clone, Copy)]
pub(crate) enum Passed {
    Repeated,
    Distinct,
    // Nothing of this one and those above.
    DistinctBelow(u32),
}

fn tell(left_out: Option<u32>) -> Passed
    ensures { result ≡ told left_out }
{
    match left_out {
        None => Passed::Distinct,
        Some(limit) => Passed::DistinctBelow(limit),
    }
}

fn pass(kind: Kind, strip: &[u8], at: usize, count: u32, least: u32, space: &mut [u32]) -> Passed
    ensures { result ≡ pass (length space.old) least (frames (form_of (kind_of kind)) count (drop at strip.now)) nothing }
{
    let mut at = at;
    let mut collected = Collected {
        count: 0,
        left_out: None,
    };
    'keys: for _ in 0..count {
        let Some((frame, next)) = skip::skip_key(kind, strip, at) else {
            return tell(collected.left_out);
        };
        let Some(more) = collected.with(space, least, frame) else {
            return Passed::Repeated;
        };
        at = next;
        collected = more;
    }
    tell(collected.left_out)
}

// Of so many keys from a position on. A pass finishes with at least as many frames as the lent slice has places.
pub(crate) fn any_repeated(
    kind: Kind,
    strip: &[u8],
    at: usize,
    count: u32,
    space: &mut [u32],
) -> bool
    requires { 0 < length space.old }
    ensures { result ≡ repeats (frames (form_of (kind_of kind)) count (drop at strip.now)) }
{
    let mut least = 0;
    'passes: loop {
        match pass(kind, strip, at, count, least, space) {
            Passed::Repeated => return true,
            Passed::Distinct => return false,
            Passed::DistinctBelow(limit) => least = limit,
        }
    }
}
