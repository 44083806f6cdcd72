// Why a strip is not read (document 02, T-02).
ghost use Rattle.std.specs.Prelude.{◌≡◌};
ghost use Rattle.strip_reader.specs.Answers.{reader_refusal};

use std::error::Error;
use std::fmt;

#[derive(Clone, Copy, Debug, PartialEq, Eq)]
pub enum ReaderRefusal {
    // 16: more bytes are lent than the limit.
    TooLong,
    // 23: the strip ends early, or has bytes left over.
    NotWhole,
    // 24: a map byte names a field that there is not.
    UnknownMap,
    // 25: the strip has what the builder never writes.
    NeverWritten,
    // 19: there is no track or key of that number.
    Absent,
}

impl ReaderRefusal {
    // Document 02's number, and for 16 and 19 document 01's.
    pub fn number(self) -> u8
        ensures { result ≡ (reader_refusal self).number }
    {
        match self {
            ReaderRefusal::TooLong => 16,
            ReaderRefusal::NotWhole => 23,
            ReaderRefusal::UnknownMap => 24,
            ReaderRefusal::NeverWritten => 25,
            ReaderRefusal::Absent => 19,
        }
    }
}

impl fmt::Display for ReaderRefusal {
    fn fmt<W: fmt::Write>(&self, f: &mut fmt::Formatter<W>) -> fmt::Result {
        write!(f, "{}", self.number())
    }
}

impl Error for ReaderRefusal {}
