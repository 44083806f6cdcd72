// Why a path is not looked up in a list.
ghost use Rattle.std.specs.Prelude.{◌≡◌};
ghost use Rattle.asset_references.specs.Answers.{asset_refusal};

use std::error::Error;
use std::fmt;

#[derive(Clone, Copy, Debug, PartialEq, Eq)]
pub enum AssetRefusal {
    // 16: more bytes are lent, as path or as list, than the limit.
    TooLong,
    // 21: the list ends inside an entry.
    ListCutOff,
    // 22: a byte above 127 stands in the path or in an entry's text.
    NotAscii,
}

impl AssetRefusal {
    // Document 02's number, and for 16 document 01's.
    pub fn number(self) -> u8
        ensures { result ≡ (asset_refusal self).number }
    {
        match self {
            AssetRefusal::TooLong => 16,
            AssetRefusal::ListCutOff => 21,
            AssetRefusal::NotAscii => 22,
        }
    }
}

impl fmt::Display for AssetRefusal {
    fn fmt<W: fmt::Write>(&self, f: &mut fmt::Formatter<W>) -> fmt::Result {
        write!(f, "{}", self.number())
    }
}

impl Error for AssetRefusal {}
