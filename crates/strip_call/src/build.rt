// Document 01, "Build order", for one kind: the index scan, the tracks, and 15. The length of slices that are written is a clause, here and
// in clip_build: a struct that lends them would have to keep its fact at each write.
ghost use Rattle.std.proofs.Math.Option.{none};
ghost use Rattle.std.specs.Prelude.{◌≡◌, length};
ghost use Rattle.clip.specs.Scan.{scan};
ghost use Rattle.blocks.specs.Kind.{kind_of};
ghost use Rattle.blocks.specs.Block.{links};
ghost use Rattle.strip_call.specs.Building.{Builds, reported};

use crate::answer::Counted;
use blocks::block::Records;
use blocks::fault::Fault;
use blocks::kind::Kind;
use chains::chain::Chains;
use chains::lookup::Indexed;
use chains::scan;
use marks::counts::Counts;
use marks::{counts, mark, rising};
use track_keys::tracks;

// 15, or what the build reports.
fn report(kind: Kind, counts: Counts) -> Result<Counted, Fault>
    ensures { result ≡ reported kind counts }
{
    if 0 < counts.disconnected {
        return Err(Fault::Disconnected(kind, counts.disconnected));
    }
    Ok(Counted {
        reached: counts.reached,
        loose: counts.loose,
    })
}

// The tracks and 15, where the index scan has passed: at once if they are as MMD writes them, else in document 01's order.
#[tactic(auto, using(crate::proofs::Built::kinds))]
fn build_tracks(indexed: &Indexed, marks: &mut [u16]) -> Result<Counted, Fault>
    requires scans { scan (kind_of indexed.now.records.block.kind) (links indexed.now.records.section.now indexed.now.records.block) ≡ none }
    requires marks_len { length marks.old ≡ indexed.now.records.block.records.count }
    ensures builds { Builds indexed.now.records.section.now indexed.now.records.block indexed.now.slots.now marks.new result }
    ensures marks_len_unchanged { length marks.new ≡ length marks.old }
{
    let kind = indexed.records.block.kind;
    if let Some(reached) = rising::mark_rising(indexed, marks) {
        return report(kind, counts::count(&indexed.records, marks, reached));
    }
    tracks::all_tracks(indexed, marks)?;
    let chains = Chains { indexed: *indexed };
    report(kind, mark::mark(&chains, marks))
}

#[tactic(auto, using(crate::proofs::Built::kinds))]
pub fn build_kind(records: &Records, slots: &mut [u16], marks: &mut [u16]) -> Result<Counted, Fault>
    requires slots_len { length slots.old ≡ records.now.block.records.count }
    requires marks_len { length marks.old ≡ records.now.block.records.count }
    ensures builds { Builds records.now.section.now records.now.block slots.new marks.new result }
    ensures slots_len_unchanged { length slots.new ≡ length slots.old }
    ensures marks_len_unchanged { length marks.new ≡ length marks.old }
{
    scan::index_scan(records, slots)?;
    let indexed = Indexed {
        records: *records,
        slots,
    };
    build_tracks(&indexed, marks)
}
