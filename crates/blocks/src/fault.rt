// What a build meets (document 01, "Turned down, and by whose doing").
ghost use Rattle.std.specs.Prelude.{◌≡◌};
ghost use Rattle.blocks.specs.Fault.{fault_of};

use crate::kind::Kind;
use crate::track::{BoneIndex, MorphIndex, TrackIndex};
use std::fmt;

// Its kind or its track, and the values that document 01 lists; specs/Fault.antt gives its number.
#[derive(Clone, Copy, Debug, PartialEq, Eq)]
pub enum Fault {
    NegativeIndex(Kind, i32),
    // The index, and the number of tracks.
    IndexBelowCount(Kind, i32, usize),
    RepeatedIndex(Kind, i32),
    MissingLink(TrackIndex, i32),
    Cycle(TrackIndex, i32),
    // The link, the previous link that was found, and the one expected.
    WrongPrevious(TrackIndex, i32, i32, i32),
    NegativeFrame(TrackIndex, i32),
    RepeatedFrame(TrackIndex, i32),
    InvalidTranslation(BoneIndex, i32),
    InvalidOrientation(BoneIndex, i32),
    InvalidWeight(MorphIndex, i32),
    // How many records.
    Disconnected(Kind, usize),
}

impl Fault {
    // Document 01's number.
    pub fn number(self) -> u8
        ensures { result ≡ (fault_of self).number }
    {
        match self {
            Fault::NegativeIndex(_, _) => 3,
            Fault::IndexBelowCount(_, _, _) => 4,
            Fault::RepeatedIndex(_, _) => 5,
            Fault::MissingLink(_, _) => 6,
            Fault::Cycle(_, _) => 7,
            Fault::WrongPrevious(_, _, _, _) => 8,
            Fault::NegativeFrame(_, _) => 10,
            Fault::RepeatedFrame(_, _) => 11,
            Fault::InvalidTranslation(_, _) => 12,
            Fault::InvalidOrientation(_, _) => 13,
            Fault::InvalidWeight(_, _) => 14,
            Fault::Disconnected(_, _) => 15,
        }
    }
}

// The number, and its values but for the kind.
impl fmt::Display for Fault {
    fn fmt<W: fmt::Write>(&self, f: &mut fmt::Formatter<W>) -> fmt::Result {
        write!(f, "{}: ", self.number())?;
        match *self {
            Fault::NegativeIndex(_, index) | Fault::RepeatedIndex(_, index) => {
                write!(f, "{index}")
            }
            Fault::IndexBelowCount(_, index, count) => write!(f, "{index} {count}"),
            Fault::MissingLink(track, link) | Fault::Cycle(track, link) => {
                write!(f, "{} {link}", track.number())
            }
            Fault::WrongPrevious(track, link, found, expected) => {
                write!(f, "{} {link} {found} {expected}", track.number())
            }
            Fault::NegativeFrame(track, frame) | Fault::RepeatedFrame(track, frame) => {
                write!(f, "{} {frame}", track.number())
            }
            Fault::InvalidTranslation(bone, frame) | Fault::InvalidOrientation(bone, frame) => {
                write!(f, "{} {frame}", bone.0)
            }
            Fault::InvalidWeight(morph, frame) => write!(f, "{} {frame}", morph.0),
            Fault::Disconnected(_, records) => write!(f, "{records}"),
        }
    }
}
