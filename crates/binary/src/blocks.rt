// Blocks of records of fixed items: whole or not by arithmetic, whatever the number of records.
ghost use Rattle.std.specs.Prelude.{◌≡◌};
ghost use Rattle.layout.specs.Walk.{items as items_of, times as times_of};
ghost use Rattle.layout.specs.Records.{size};
ghost use Rattle.layout.specs.Blocks.{place};
ghost use Rattle.binary.specs.Answers.{skipped};
ghost use Rattle.binary.specs.Items.{widths};

use crate::refusal::Refusal;
use crate::runs::Run;

// A record's items in file order: the first, then the others as runs.
#[derive(Clone, Copy)]
pub struct Items {
    pub first: u8,
    pub runs: [Run; 5],
}

#[tactic(auto, using(crate::proofs::Passing::passing))]
pub fn record_size(items: &Items) -> usize
    ensures { result ≡ size (widths items.now) }
{
    let mut size = items.first as usize;
    for run in &items.runs {
        size += run.size();
    }
    size
}

// Where in `room` bytes the first item of a record stands that is not whole.
#[tactic(auto, using(crate::proofs::Passing::passing))]
fn place_in_record(items: &Items, room: usize) -> usize
    ensures { result ≡ place (widths items.now) room }
{
    let mut at = items.first as usize;
    if room < at {
        return 0;
    }
    for run in &items.runs {
        let left = room - at;
        let size = run.size();
        if left < size {
            let width = run.width as usize;
            return at + left / width * width;
        }
        at += size;
    }
    at
}

// `count` records; their number costs nothing.
#[tactic(auto, using(crate::proofs::Skips::skip_records))]
pub fn skip_records(s: &[u8], at: usize, count: u32, items: &Items) -> Result<usize, Refusal>
    ensures { skipped result ≡ times_of count (items_of (widths items.now)) s.now at }
{
    if count == 0 {
        return Ok(at);
    }
    if s.len() < at {
        return Err(Refusal::TooShort(at));
    }
    let n = count as usize;
    let room = s.len() - at;
    let size = record_size(items);
    if size == 0 {
        return Ok(at);
    }
    let fit = room / size;
    if n <= fit {
        return Ok(at + n * size);
    }
    Err(Refusal::TooShort(at + (fit * size + place_in_record(items, room % size))))
}
