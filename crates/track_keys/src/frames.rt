// Runs only where tracks are not as MMD writes them (marks, rising). 11: the first key of a track whose frame an earlier key has. Key 0 is
// the initial record's, key i + 1 that of the record listed at i.
ghost use Rattle.std.specs.Prelude.{◌≡◌, ◌+◌, length};
ghost use Rattle.order.specs.Repeat.{FirstRepeat};
ghost use Rattle.chains.specs.Positions.{records_of};
ghost use Rattle.track_keys.specs.Frames.{chain_frames, Rising};

use chains::chain::Chain;
use order::field::{Field, Numbers};
use order::{met, repeats};

// What the list holds is a clause here and below, since most of these functions write it (order, slots).

// The last key up to which frames rise, where the list holds the chain.
fn rising(chain: &Chain, list: &[u16]) -> usize
    requires { list.now ≡ records_of chain.now }
    ensures { Rising (chain_frames chain.now) (length list.now) result }
{
    let records = &chain.indexed.records;
    let mut last = records.first_frame(chain.track);
    for (i, p) in list.iter().enumerate() {
        let frame = records.frame_at(*p as usize);
        if frame <= last {
            return i;
        }
        last = frame;
    }
    list.len()
}

// The chain in the list, whatever the list held.
fn list_again(chain: &Chain, list: &mut [u16])
    requires { length list.old ≡ length (records_of chain.now) }
    ensures { list.new ≡ records_of chain.now }
{
    for (i, p) in chain.positions().enumerate() {
        list[i] = p as u16;
    }
}

// The first repeat, where the list holds the chain. Sorted by frame, the list tells whether there is one. Then the chain is followed again
// by its links, and each frame met is marked in the list.
fn met_again(chain: &Chain, list: &mut [u16]) -> usize
    requires { list.old ≡ records_of chain.now }
    ensures { FirstRepeat (chain_frames chain.now) (length list.old + 1) result }
{
    let records = &chain.indexed.records;
    let first = records.first_frame(chain.track);
    let block = records.block;
    let field = Field {
        offset: block.records.offset + 4,
        ..block.records
    };
    let frames = Numbers {
        section: records.section,
        field,
    };
    if !repeats::repeats(&frames, list, first) {
        return list.len() + 1;
    }
    for (i, p) in chain.positions().enumerate() {
        let frame = records.frame_at(p);
        if frame == first {
            return i + 1;
        }
        if met::meet(&frames, list, frame) {
            return i + 1;
        }
    }
    list.len() + 1
}

// The number of keys if no frame is repeated. Frames that rise cost one pass; any others one sort of the list, and if one is repeated, a
// search in it for each key. The sort loses the chain, which is listed again at the end.
pub fn first_repeated_frame(chain: &Chain, list: &mut [u16]) -> usize
    requires { list.old ≡ records_of chain.now }
    ensures first_repeat { FirstRepeat (chain_frames chain.now) (length list.old + 1) result }
    ensures list_unchanged { list.new ≡ list.old }
{
    let apart = rising(chain, list);
    if apart == list.len() {
        return list.len() + 1;
    }
    let again = met_again(chain, list);
    list_again(chain, list);
    again
}
