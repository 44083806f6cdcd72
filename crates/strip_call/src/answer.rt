// What the strip call answers; specs/Answers.antt gives document 01's number and values for each case.
ghost use Rattle.std.specs.Prelude.{◌≡◌};

use binary::refusal::Refusal;
use blocks::fault::Fault;
use std::error::Error;
use std::fmt;

// How many links a build followed, and how many records are loose.
#[derive(Clone, Copy, Debug, PartialEq, Eq)]
pub struct Counted {
    pub reached: usize,
    pub loose: usize,
}

// The strip's length, the links followed and the loose records.
#[derive(Clone, Copy, Debug, PartialEq, Eq)]
pub struct Built {
    pub strip_length: usize,
    pub reached: usize,
    pub loose: usize,
}

#[derive(Clone, Copy, Debug, PartialEq, Eq)]
pub enum StripRefusal {
    Reading(Refusal),
    Build(Fault),
    // How many places are needed.
    WorkTooShort(usize),
    // The strip's length.
    OutputTooShort(usize),
}

impl From<Refusal> for StripRefusal {
    ghost use Rattle.strip_call.specs.declared.answer.StripRefusal.TheVariants.{Reading};

    ghost from_gives = { λ why refusal. refusal ≡ Reading why };

    fn from(why: Refusal) -> StripRefusal {
        StripRefusal::Reading(why)
    }
}

impl From<Fault> for StripRefusal {
    ghost use Rattle.strip_call.specs.declared.answer.StripRefusal.TheVariants.{Build};

    ghost from_gives = { λ fault refusal. refusal ≡ Build fault };

    fn from(fault: Fault) -> StripRefusal {
        StripRefusal::Build(fault)
    }
}

impl StripRefusal {
    ghost use Rattle.strip_call.specs.Answers.{strip_refusal};

    // Document 01's number.
    pub fn number(self) -> u8
        ensures { result ≡ (strip_refusal self).number }
    {
        match self {
            StripRefusal::Reading(why) => why.number(),
            StripRefusal::Build(fault) => fault.number(),
            StripRefusal::WorkTooShort(_) => 17,
            StripRefusal::OutputTooShort(_) => 18,
        }
    }
}

// The number, and its values but for the kind.
impl fmt::Display for StripRefusal {
    fn fmt<W: fmt::Write>(&self, f: &mut fmt::Formatter<W>) -> fmt::Result {
        match *self {
            StripRefusal::Reading(why) => write!(f, "{why}"),
            StripRefusal::Build(fault) => write!(f, "{fault}"),
            StripRefusal::WorkTooShort(places) | StripRefusal::OutputTooShort(places) => {
                write!(f, "{}: {places}", self.number())
            }
        }
    }
}

impl Error for StripRefusal {}
