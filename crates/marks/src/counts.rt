// The records that no chain holds: "calling a record loose when only one link is 0" is a mistake that document 01 names.
ghost use Rattle.std.specs.Prelude.{◌≡◌, ◌<◌};
ghost use Rattle.strip.specs.Work.{each, track_mark};
ghost use Rattle.clip.specs.Scan.{Indexed};
ghost use Rattle.clip.specs.Build.{both_links_zero, links_followed};
ghost use Rattle.blocks.specs.Kind.{kind_of};
ghost use Rattle.blocks.specs.Block.{links};
ghost use Rattle.chains.specs.Walk.{AllEnd};
ghost use Rattle.marks.specs.Marks.{counts_of};

use blocks::block::Records;

#[derive(Clone, Copy, Debug, PartialEq, Eq)]
pub struct Counts {
    pub disconnected: usize,
    pub reached: usize,
    pub loose: usize,
}

fn unlinked(records: &Records, p: usize) -> bool
    requires { p < records.now.block.records.count }
    ensures { result ≡ both_links_zero (kind_of records.now.block.kind) (links records.now.section.now records.now.block) p }
{
    let previous = records.previous_at(p);
    let next = records.next_at(p);
    (previous == 0) & (next == 0)
}

// The counts, where every chain ends and so many links were followed. If these are as many as the records, no record is left. What is known
// of the chains is said in clauses: one of the two passes that ask has no `Chains`.
#[tactic(auto, using(crate::proofs::Unreached::counting))]
pub fn count(records: &Records, marks: &[u16], reached: usize) -> Counts
    requires indexed { Indexed (links records.now.section.now records.now.block) }
    requires all_end { AllEnd records.now.section.now records.now.block }
    requires reached_value { reached ≡ links_followed (kind_of records.now.block.kind) (links records.now.section.now records.now.block) }
    requires marks_value { marks.now ≡ each records.now.block.records.count (track_mark (kind_of records.now.block.kind) (links records.now.section.now records.now.block)) }
    ensures { result ≡ counts_of records.now.section.now records.now.block }
{
    if reached == records.block.records.count {
        return Counts {
            disconnected: 0,
            reached,
            loose: 0,
        };
    }
    // Two counts in one pass: two chains of `filter` would look at each record twice.
    let mut disconnected = 0;
    let mut loose = 0;
    for (p, mark) in marks.iter().enumerate() {
        if *mark == 0 {
            if unlinked(records, p) {
                loose += 1;
            } else {
                disconnected += 1;
            }
        }
    }
    Counts {
        disconnected,
        reached,
        loose,
    }
}
