// Chains that are known to end, so that a link that is not 0 has its record.
ghost use Rattle.std.specs.Prelude.{◌≡◌};
ghost use Rattle.blocks.specs.Track.{number_of_track};
ghost use Rattle.blocks.specs.Block.{TrackOf};
ghost use Rattle.chains.specs.Walk.{AllEnd};
ghost use Rattle.chains.specs.Chain.{Ends};

use crate::lookup::Indexed;
use blocks::track::TrackIndex;

// The chain of a track.
#[derive(Clone, Copy)]
pub struct Chain<'a> {
    pub indexed: Indexed<'a>,
    pub track: TrackIndex,
    pub ghost is_track: { TrackOf indexed.records.block track },
    pub ghost ends: { Ends indexed.records.section.now indexed.records.block indexed.slots.now (number_of_track track) },
}

// The chains of all tracks.
#[derive(Clone, Copy)]
pub struct Chains<'a> {
    pub indexed: Indexed<'a>,
    pub ghost all_end: { AllEnd indexed.records.section.now indexed.records.block },
}

impl<'a> Chains<'a> {
    pub fn chain(&self, track: TrackIndex) -> Chain<'a>
        requires { TrackOf self.now.indexed.records.block track }
        ensures indexed { result.indexed ≡ self.now.indexed }
        ensures track { result.track ≡ track }
    {
        Chain {
            indexed: self.indexed,
            track,
        }
    }
}
