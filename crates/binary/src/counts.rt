// Counts.
ghost use Rattle.std.specs.Prelude.{◌≡◌};
ghost use Rattle.layout.specs.Walk.{count};
ghost use Rattle.binary.specs.Answers.{read};

use crate::numbers;
use crate::refusal::{Read, Refusal};

// A limit that no i32 is above: 2^31 - 1.
pub const UNLIMITED: u32 = i32::MAX as u32;

// A count is an i32 that is neither negative nor above `limit`.
#[tactic(auto, unfolding(layout::specs::Walk::count))]
pub fn read_count(s: &[u8], at: usize, limit: u32) -> Read<u32>
    ensures { read result ≡ count limit s.now at }
{
    let (n, next) = numbers::read_i32_le(s, at)?;
    let Ok(n) = u32::try_from(n) else {
        return Err(Refusal::NegativeCount(at));
    };
    if limit < n {
        return Err(Refusal::CountAboveLimit(at));
    }
    Ok((n, next))
}
