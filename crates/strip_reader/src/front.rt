// What stands at a position of a strip. A position stands for the bytes from it on, which the definitions take.
ghost use Rattle.std.specs.Prelude.{◌≡◌, ◌<◌, drop};
ghost use Rattle.strip_reader.specs.Reads.{head_read, field_read, head, field_of};

use crate::refusal::ReaderRefusal;
use binary::numbers;

// What is read at a position, and the position behind it.
pub type Read<T> = Result<(T, usize), ReaderRefusal>;

// Where the first track stands, behind both counts.
pub const TRACKS: usize = 4;

// The bytes before a key's fields: frame u32 and map byte.
pub const HEAD: usize = 5;

// The highest frame that the builder writes.
pub const LAST_FRAME: u32 = i32::MAX as u32;

// A key's frame, its map and the position behind them.
#[tactic(auto, using(crate::proofs::Fronts::heads))]
pub fn read_head(strip: &[u8], at: usize) -> Result<(u32, u8, usize), ReaderRefusal>
    ensures { head_read strip.now result ≡ head (drop at strip.now) }
{
    if strip.len().saturating_sub(at) < HEAD {
        return Err(ReaderRefusal::NotWhole);
    }
    Ok((numbers::u32_at(strip, at), strip[at + 4], at + HEAD))
}

// The bytes of a group where its bit stands, and its plain value where not.
#[tactic(auto, using(crate::proofs::Fronts::fields))]
pub fn read_field<const N: usize>(
    strip: &[u8],
    at: usize,
    stands: bool,
    plain: [u8; N],
) -> Read<[u8; N]>
    requires { 0 < N }
    ensures { field_read strip.now result ≡ field_of N stands plain.entry (drop at strip.now) }
{
    if !stands {
        return Ok((plain, at));
    }
    if strip.len().saturating_sub(at) < N {
        return Err(ReaderRefusal::NotWhole);
    }
    Ok((numbers::bytes(strip, at), at + N))
}
