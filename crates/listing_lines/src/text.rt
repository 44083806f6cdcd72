// Text written at a place of a slice, as far as it reaches. Each answers where it ends there, so that the next comes behind it.
ghost use Rattle.std.specs.Prelude.{◌≤◌, length};
ghost use Rattle.listing_lines.specs.Written.{Written};
ghost use Rattle.listing_lines.specs.Lines.{spaced};

use crate::decimal;
use answer_numbers::put;

pub fn write(output: &mut [u8], at: usize, text: &[u8]) -> usize
    requires { at ≤ length output.old }
    ensures { Written at text.now output.old result output.new }
{
    put::put(output, at, text);
    at + text.len().min(output.len() - at)
}

// A number behind a space.
pub fn write_spaced(output: &mut [u8], at: usize, n: usize) -> usize
    requires { at ≤ length output.old }
    ensures { Written at (spaced n) output.old result output.new }
{
    let mut digits = [0; decimal::DIGITS];
    let begin = decimal::write_digits(n, &mut digits);
    let behind = write(output, at, b" ");
    write(output, behind, &digits[begin..])
}
