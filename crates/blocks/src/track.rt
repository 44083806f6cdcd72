// The number of a track. "`BoneIndex` and `MorphIndex` number two kinds of track that are kept separate" (document 01).
ghost use Rattle.std.specs.Prelude.{◌≡◌};
ghost use Rattle.blocks.specs.Track.{kind_of_track, number_of_track};

use crate::kind::Kind;

#[derive(Clone, Copy, Debug, PartialEq, Eq)]
pub struct BoneIndex(pub u32);

#[derive(Clone, Copy, Debug, PartialEq, Eq)]
pub struct MorphIndex(pub u32);

// Of either kind, where one piece of code serves both.
#[derive(Clone, Copy, Debug, PartialEq, Eq)]
pub enum TrackIndex {
    Bone(BoneIndex),
    Morph(MorphIndex),
}

impl TrackIndex {
    pub fn new(kind: Kind, number: u32) -> TrackIndex
        ensures kind { kind_of_track result ≡ kind }
        ensures number { number_of_track result ≡ number }
    {
        match kind {
            Kind::Bone => TrackIndex::Bone(BoneIndex(number)),
            Kind::Morph => TrackIndex::Morph(MorphIndex(number)),
        }
    }

    pub fn kind(self) -> Kind
        ensures { result ≡ kind_of_track self }
    {
        match self {
            TrackIndex::Bone(_) => Kind::Bone,
            TrackIndex::Morph(_) => Kind::Morph,
        }
    }

    pub fn number(self) -> u32
        ensures { result ≡ number_of_track self }
    {
        match self {
            TrackIndex::Bone(bone) => bone.0,
            TrackIndex::Morph(morph) => morph.0,
        }
    }
}
