// Strings at a position: a length byte and as many bytes, or a field of fixed width.
ghost use Rattle.std.specs.Prelude.{◌≡◌, ◌==◌};
ghost use Rattle.std.specs.List.{position};
ghost use Rattle.layout.specs.Walk.{string, fixed_string, times};
ghost use Rattle.binary.specs.Answers.{read, skipped};

use crate::numbers;
use crate::refusal::{Read, Refusal};
use layout::Part;

#[tactic(auto, unfolding(layout::specs::Walk::string, layout::specs::Walk::item))]
pub fn read_variable_string(s: &[u8], at: usize) -> Read<Part>
    ensures { read result ≡ string s.now at }
{
    let (width, offset) = numbers::read_u8(s, at)?;
    let byte_length = width as usize;
    let next = numbers::skip(s, offset, byte_length)?;
    Ok((
        Part {
            offset,
            byte_length,
        },
        next,
    ))
}

fn first_zero(bytes: &[u8]) -> Option<usize>
    ensures { result ≡ position (λ b. b == 0) bytes.now }
{
    bytes.iter().position(|byte| *byte == 0)
}

// A field of `width` bytes ends before its first zero byte, if it has one.
#[tactic(auto, using(crate::proofs::Zero::before_zero_or), unfolding(layout::specs::Walk::item))]
pub fn read_fixed_string(s: &[u8], at: usize, width: usize) -> Read<Part>
    ensures { read result ≡ fixed_string width s.now at }
{
    let next = numbers::skip(s, at, width)?;
    let byte_length = first_zero(&s[at..next]).unwrap_or(width);
    Ok((
        Part {
            offset: at,
            byte_length,
        },
        next,
    ))
}

// The position behind `count` strings.
#[tactic(auto, using(layout::proofs::Steps::turns))]
pub fn skip_strings(s: &[u8], at: usize, count: u32) -> Result<usize, Refusal>
    ensures { skipped result ≡ times count string s.now at }
{
    let mut next = at;
    for _ in 0..count {
        (_, next) = read_variable_string(s, next)?;
    }
    Ok(next)
}
