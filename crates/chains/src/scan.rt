// Document 01, module 3: the index scan of the additional records, which leaves their positions by rising index in the first work slice.
ghost use Rattle.std.specs.Prelude.{true, ◌≡◌, length};
ghost use Rattle.std.proofs.Math.Option.{none};
ghost use Rattle.clip.specs.Scan.{scan};
ghost use Rattle.blocks.specs.Kind.{kind_of};
ghost use Rattle.blocks.specs.Block.{links};
ghost use Rattle.chains.specs.Lookup.{Ordered};
ghost use Rattle.blocks.specs.Fault.{met_read};
ghost use Rattle.chains.specs.Scan.{InRange, IndicesRise};

use blocks::block::Records;
use blocks::fault::Fault;
use order::field::Numbers;
use order::{repeats, slots};

// The least 32 bits that a negative i32 has.
const LEAST_NEGATIVE: usize = 2147483648;

// Whether indices rise from the kind's count on, as they do in the files that MMD writes. The last one is the largest.
fn rising(records: &Records) -> bool
    ensures { result ≡ true → IndicesRise records.now.section.now records.now.block }
{
    let mut least = records.block.initials.count;
    for p in 0..records.block.records.count {
        let index = records.index_at(p) as usize;
        if index < least {
            return false;
        }
        least = index + 1;
    }
    least <= LEAST_NEGATIVE
}

// How many records in front have an index that is not negative and not below the kind's count.
fn in_range(records: &Records) -> usize
    ensures { InRange records.now.section.now records.now.block result }
{
    for p in 0..records.block.records.count {
        let index = records.index_at(p);
        if index.cast_signed() < 0 {
            return p;
        }
        if (index as usize) < records.block.initials.count {
            return p;
        }
    }
    records.block.records.count
}

// 3 and 4 are met before 5 at a record, and a repeat at a record before it is met earlier. The length of the slots is a clause here, below
// and in walk, since these functions write them.
fn scan_any(records: &Records, slots: &mut [u16]) -> Result<(), Fault>
    requires { length slots.old ≡ records.now.block.records.count }
    ensures result_value { met_read result ≡ scan (kind_of records.now.block.kind) (links records.now.section.now records.now.block) }
    ensures ordered { scan (kind_of records.now.block.kind) (links records.now.section.now records.now.block) ≡ none → Ordered records.now.section.now records.now.block slots.new }
{
    let kind = records.block.kind;
    let passed = in_range(records);
    let indices = Numbers {
        section: records.section,
        field: records.block.records,
    };
    let repeated = repeats::first_repeat(&indices, slots);
    if repeated < passed {
        return Err(Fault::RepeatedIndex(kind, records.index_at(repeated).cast_signed()));
    }
    if passed < records.block.records.count {
        let index = records.index_at(passed).cast_signed();
        if index < 0 {
            return Err(Fault::NegativeIndex(kind, index));
        }
        return Err(Fault::IndexBelowCount(kind, index, records.block.initials.count));
    }
    Ok(())
}

// Indices that rise cost one pass, and no positions need to be sorted.
pub fn index_scan(records: &Records, slots: &mut [u16]) -> Result<(), Fault>
    requires { length slots.old ≡ records.now.block.records.count }
    ensures result_value { met_read result ≡ scan (kind_of records.now.block.kind) (links records.now.section.now records.now.block) }
    ensures ordered { scan (kind_of records.now.block.kind) (links records.now.section.now records.now.block) ≡ none → Ordered records.now.section.now records.now.block slots.new }
{
    if rising(records) {
        slots::put_in_file_order(slots);
        return Ok(());
    }
    scan_any(records, slots)
}
