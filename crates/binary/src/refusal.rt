// Why a call that reads a section gives no result (document 01, "Turned down").
ghost use Rattle.std.specs.Prelude.{◌≡◌};
ghost use Rattle.binary.specs.Answers.{reading_refusal};

use std::error::Error;
use std::fmt;

// With the offset where there is one.
#[derive(Clone, Copy, Debug, PartialEq, Eq)]
pub enum Refusal {
    // 1: a value does not fit in the bytes left.
    TooShort(usize),
    // 2: a count is negative.
    NegativeCount(usize),
    // 20: a count is above the limit.
    CountAboveLimit(usize),
    // 16: more bytes are lent than the limit.
    TooLong,
    // 19: there is no record or name of that number.
    Absent,
}

impl Refusal {
    // Document 01's number.
    pub fn number(self) -> u8
        ensures { result ≡ (reading_refusal self).number }
    {
        match self {
            Refusal::TooShort(_) => 1,
            Refusal::NegativeCount(_) => 2,
            Refusal::CountAboveLimit(_) => 20,
            Refusal::TooLong => 16,
            Refusal::Absent => 19,
        }
    }
}

// The number, and the offset.
impl fmt::Display for Refusal {
    fn fmt<W: fmt::Write>(&self, f: &mut fmt::Formatter<W>) -> fmt::Result {
        write!(f, "{}", self.number())?;
        match self {
            Refusal::TooShort(at) | Refusal::NegativeCount(at) | Refusal::CountAboveLimit(at) =>
                write!(f, " at {at}"),
            Refusal::TooLong | Refusal::Absent => Ok(()),
        }
    }
}

impl Error for Refusal {}

// What is read at a position, and the position behind it.
pub type Read<T> = Result<(T, usize), Refusal>;
