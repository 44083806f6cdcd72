// Bones and morphs.
ghost use Rattle.std.specs.Prelude.{◌≡◌};
ghost use Rattle.std.specs.Int.{w32};
ghost use Rattle.std.proofs.Common.{of_z};
ghost use Rattle.clip.specs.Fields.{kind_value};
ghost use Rattle.blocks.specs.Kind.{kind_of};

use std::fmt;

// Two kinds and no more, matched where their bodies differ: a type parameter would stand on every struct and function above, and make two
// copies of every walk.
#[derive(Clone, Copy, Debug, PartialEq, Eq)]
pub enum Kind {
    Bone,
    Morph,
}

// As document 01 numbers the kinds.
impl From<Kind> for u64 {
    ghost from_gives = { λ kind number. number ≡ of_z w32 (kind_value (kind_of kind)) };

    fn from(kind: Kind) -> u64 {
        match kind {
            Kind::Bone => 0,
            Kind::Morph => 1,
        }
    }
}

impl fmt::Display for Kind {
    fn fmt<W: fmt::Write>(&self, f: &mut fmt::Formatter<W>) -> fmt::Result {
        match self {
            Kind::Bone => write!(f, "bone"),
            Kind::Morph => write!(f, "morph"),
        }
    }
}
