// The number that stands for a value.
ghost use Rattle.std.specs.Prelude.{◌≡◌};
ghost use Rattle.answer_numbers.specs.Scalars.{pattern as pattern_of, index as index_of};

// The 32-bit pattern of an i32, in two's complement.
pub fn pattern(x: i32) -> u64
    ensures { result ≡ pattern_of x }
{
    u64::from(x.cast_unsigned())
}

// An initial record has no index.
pub fn index(x: Option<i32>) -> u64
    ensures { result ≡ index_of x }
{
    x.map_or(u64::MAX, pattern)
}
