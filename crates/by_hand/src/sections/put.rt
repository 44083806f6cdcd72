// Numbers and records, put into a section as bytes.
ghost use Rattle.std.specs.Prelude.{◌+◌, ◌≤◌, ◌≡◌, ◌++◌, take, drop, to_bits};
ghost use Rattle.std.specs.Int.{to_le_bytes, w32};
ghost use Rattle.std.specs.Float.{binary32};

use std::num;

pub fn put<const M: usize, const N: usize>(section: &mut [u8; M], at: usize, bytes: [u8; N])
    requires { at + N ≤ M }
    ensures { section.new ≡ take at section.old ++ (bytes.entry ++ drop (at + N) section.old) }
{
    let all = &mut section[..];
    all[at..at + N].copy_from_slice(&bytes);
}

pub fn put_u32<const M: usize>(section: &mut [u8; M], at: usize, n: u32)
    requires { at + 4 ≤ M }
    ensures { section.new ≡ take at section.old ++ (to_le_bytes w32 n ++ drop (at + 4) section.old) }
{
    put(section, at, n.to_le_bytes());
}

pub fn put_f32<const M: usize>(section: &mut [u8; M], at: usize, x: f32)
    requires { at + 4 ≤ M }
    ensures { section.new ≡ take at section.old ++ (to_le_bytes w32 (to_bits binary32 x) ++ drop (at + 4) section.old) }
{
    put_u32(section, at, num::f32_to_bits_with_nan(x));
}
