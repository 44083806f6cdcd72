// Little-endian numbers, bools and floats at a position.
ghost use Rattle.std.specs.Prelude.{◌≡◌, ◌+◌, ◌≤◌, length};
ghost use Rattle.layout.specs.Walk.{bytes_at, u8, u32_at, u32, i32, f32, bool, block};
ghost use Rattle.binary.specs.Answers.{read, skipped};

use crate::refusal::{Read, Refusal};
use std::num;

// The position behind so many bytes.
#[tactic(auto, unfolding(layout::specs::Walk::item))]
pub fn skip(s: &[u8], at: usize, n: usize) -> Result<usize, Refusal>
    ensures { skipped result ≡ block n s.now at }
{
    if s.len() < at || s.len() - at < n {
        return Err(Refusal::TooShort(at));
    }
    Ok(at + n)
}

#[tactic(auto, using(layout::proofs::Steps::whole, layout::proofs::Steps::short))]
pub fn read_u8(s: &[u8], at: usize) -> Read<u8>
    ensures { read result ≡ u8 s.now at }
{
    if at < s.len() {
        Ok((s[at], at + 1))
    } else {
        Err(Refusal::TooShort(at))
    }
}

pub fn read_bool(s: &[u8], at: usize) -> Read<bool>
    ensures { read result ≡ bool s.now at }
{
    let (byte, next) = read_u8(s, at)?;
    Ok((byte != 0, next))
}

// So many bytes that stand whole in the section, by value.
#[tactic(auto, using(crate::proofs::Slices::sliced))]
pub fn bytes<const N: usize>(s: &[u8], at: usize) -> [u8; N]
    requires { at + N ≤ length s.now }
    ensures { result ≡ bytes_at s.now at N }
{
    let mut bytes = [0; N];
    bytes.copy_from_slice(&s[at..at + N]);
    bytes
}

// Four bytes that stand whole in the section, as a number.
#[tactic(auto, unfolding(layout::specs::Walk::bytes_at))]
pub fn u32_at(s: &[u8], at: usize) -> u32
    requires { at + 4 ≤ length s.now }
    ensures { result ≡ u32_at s.now at }
{
    u32::from_le_bytes(bytes(s, at))
}

// The 32 bits of an i32 or an f32.
#[tactic(auto, unfolding(layout::specs::Walk::item))]
pub fn read_u32_le(s: &[u8], at: usize) -> Read<u32>
    ensures { read result ≡ u32 s.now at }
{
    let next = skip(s, at, 4)?;
    Ok((u32_at(s, at), next))
}

pub fn read_i32_le(s: &[u8], at: usize) -> Read<i32>
    ensures { read result ≡ i32 s.now at }
{
    let (bits, next) = read_u32_le(s, at)?;
    Ok((bits.cast_signed(), next))
}

// A NaN's bits give a NaN.
pub fn read_f32_le(s: &[u8], at: usize) -> Read<f32>
    ensures { read result ≡ f32 s.now at }
{
    let (bits, next) = read_u32_le(s, at)?;
    Ok((num::f32_from_bits_with_nan(bits), next))
}
