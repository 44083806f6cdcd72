// All keys of a strip in one reading.
ghost use Rattle.std.specs.Prelude.{◌+◌, ◌*◌, ◌≤◌, drop, IfOk};
ghost use Rattle.blocks.specs.Kind.{kind_of};
ghost use Rattle.strip_reader.specs.Rows.{track_read, tracks_rows, PutsRows};
ghost use Rattle.strip_reader.specs.Run.{KeysCall};

use crate::front::TRACKS;
use crate::refusal::ReaderRefusal;
use crate::{counts, judge, key, rows};
use blocks::kind::Kind;

// Where the next key or track stands, and the number of the next key.
#[derive(Clone, Copy)]
pub(crate) struct Reached {
    pub(crate) at: usize,
    pub(crate) number: usize,
}

// The rows of a track's keys. No strip has keys enough to come near the bounds on their number.
fn put_track(
    kind: Kind,
    track: u32,
    strip: &[u8],
    from: Reached,
    first: usize,
    slice: &mut [u32],
) -> Result<Reached, ReaderRefusal>
    requires { from.number ≤ 1000000000000000000 }
    ensures is { PutsRows (track_read (kind_of kind) track (drop from.at strip.now)) strip.now from first slice.old result slice.new }
    ensures within { IfOk result (λ to. to.number ≤ from.number + 65535) }
{
    let (count, at) = judge::read_count(strip, from.at)?;
    let count = u32::from(count);
    let mut next = at;
    'keys: for place in 0..count {
        let (key, behind) = key::read_key(kind, strip, next)?;
        rows::put_row(
            slice,
            first,
            from.number + place as usize,
            rows::row(kind, track, place, key),
        );
        next = behind;
    }
    Ok(Reached {
        at: next,
        number: from.number + count as usize,
    })
}

// The rows of so many tracks.
fn put_tracks(
    kind: Kind,
    count: u32,
    strip: &[u8],
    from: Reached,
    first: usize,
    slice: &mut [u32],
) -> Result<Reached, ReaderRefusal>
    requires { from.number ≤ 500000000000000 }
    ensures is { PutsRows (tracks_rows (kind_of kind) 0 count (drop from.at strip.now)) strip.now from first slice.old result slice.new }
    ensures within { IfOk result (λ to. to.number ≤ from.number + 65535 * count) }
{
    let mut reached = from;
    'tracks: for track in 0..count {
        reached = put_track(kind, track, strip, reached, first, slice)?;
    }
    Ok(reached)
}

// As many whole rows of 16 numbers as fit, from the key of a number on; answers how many keys there are.
pub fn keys(strip: &[u8], first: usize, rows: &mut [u32]) -> Result<usize, ReaderRefusal>
    ensures { KeysCall strip.now first rows.old result rows.new }
{
    let counts = counts::counts(strip)?;
    let start = Reached {
        at: TRACKS,
        number: 0,
    };
    let bones = put_tracks(Kind::Bone, counts.bones, strip, start, first, rows)?;
    let morphs = put_tracks(Kind::Morph, counts.morphs, strip, bones, first, rows)?;
    Ok(morphs.number)
}
