// Numbers in decimal.
ghost use Rattle.std.specs.Prelude.{◌≡◌, ◌≤◌, drop};
ghost use Rattle.std.specs.Fmt.{decimal};

// As many as the largest number has.
pub const DIGITS: usize = 20;

// The digits come to stand at the end; answers where they begin.
pub fn write_digits(n: usize, digits: &mut [u8; DIGITS]) -> usize
    ensures begins { result ≤ 20 }
    ensures leaves { drop result digits.new ≡ decimal n }
{
    let mut left = n;
    let mut at = DIGITS;
    while 10 <= left {
        at -= 1;
        digits[at] = b'0' + (left % 10) as u8;
        left /= 10;
    }
    at -= 1;
    digits[at] = b'0' + left as u8;
    at
}
