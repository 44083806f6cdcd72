// Runs only where tracks are not as MMD writes them (rising). The marks: a track's number plus 1 at each record of its chain.
ghost use Rattle.std.specs.Prelude.{◌≡◌, ◌+◌, length, replicate};
ghost use Rattle.strip.specs.Work.{each, track_mark};
ghost use Rattle.clip.specs.Build.{links_followed};
ghost use Rattle.blocks.specs.Kind.{kind_of};
ghost use Rattle.blocks.specs.Track.{number_of_track};
ghost use Rattle.blocks.specs.Block.{links};
ghost use Rattle.chains.specs.Positions.{records_of};
ghost use Rattle.marks.specs.Marks.{marked, counts_of};

use crate::counts;
use crate::counts::Counts;
use chains::chain::{Chain, Chains};

// The slice's length is a clause here and below, since these functions write it.

// The records of one chain, and how many there are. Counted here: an iterator that is used up does not say how many it gave, and `count`
// would follow the links once more.
fn mark_chain(chain: &Chain, marks: &mut [u16]) -> usize
    requires { length marks.old ≡ chain.now.indexed.records.block.records.count }
    ensures marks_after { marks.new ≡ marked (number_of_track chain.now.track + 1) (records_of chain.now) marks.old }
    ensures value { result ≡ length (records_of chain.now) }
{
    let mark = (chain.track.number() + 1) as u16;
    let mut n = 0;
    for p in chain.positions() {
        marks[p] = mark;
        n += 1;
    }
    n
}

fn mark_tracks(chains: &Chains, marks: &mut [u16]) -> usize
    requires { marks.old ≡ replicate chains.now.indexed.records.block.records.count 0 }
    ensures marks_after { marks.new ≡ each chains.now.indexed.records.block.records.count (track_mark (kind_of chains.now.indexed.records.block.kind) (links chains.now.indexed.records.section.now chains.now.indexed.records.block)) }
    ensures value { result ≡ links_followed (kind_of chains.now.indexed.records.block.kind) (links chains.now.indexed.records.section.now chains.now.indexed.records.block) }
{
    let mut reached = 0;
    let records = &chains.indexed.records;
    for number in 0..records.block.initials.count {
        let chain = chains.chain(records.track(number));
        reached += mark_chain(&chain, marks);
    }
    reached
}

// "for each bone record, then each morph record, in file order, its track number plus 1, or 0 if loose"; 15; "reached (links followed)
// and loose (unreached additional records, both links 0)"
pub fn mark(chains: &Chains, marks: &mut [u16]) -> Counts
    requires { length marks.old ≡ chains.now.indexed.records.block.records.count }
    ensures marks_after { marks.new ≡ each chains.now.indexed.records.block.records.count (track_mark (kind_of chains.now.indexed.records.block.kind) (links chains.now.indexed.records.section.now chains.now.indexed.records.block)) }
    ensures value { result ≡ counts_of chains.now.indexed.records.section.now chains.now.indexed.records.block }
{
    marks.fill(0);
    let reached = mark_tracks(chains, marks);
    counts::count(&chains.indexed.records, marks, reached)
}
