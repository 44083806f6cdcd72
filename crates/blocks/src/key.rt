// A record's key, of either kind: its frame, and where its body stands whole in the section.
ghost use Rattle.std.specs.Prelude.{◌≡◌, ◌+◌, ◌<◌, ◌≤◌, length};
ghost use Rattle.blocks.specs.Track.{number_of_track};
ghost use Rattle.blocks.specs.Block.{TrackOf, body_size, links};

use crate::block::Records;
use crate::kind::Kind;
use crate::track::TrackIndex;

#[derive(Clone, Copy)]
pub struct Key<'a> {
    pub section: &'a [u8],
    pub kind: Kind,
    pub frame: u32,
    pub at: usize,
    pub ghost whole: { at + body_size kind ≤ length section.now },
}

// The two calls are alike in shape alone: each names the fields and the count of its own block.
impl<'a> Records<'a> {
    // The key of a track's initial record.
    #[tactic(auto, using(crate::proofs::Places::places), unfolding(clip::specs::Section::initial_at))]
    pub fn initial_key(&self, track: TrackIndex) -> Key<'a>
        requires { TrackOf self.now.block track }
        ensures section { result.section.now ≡ self.now.section.now }
        ensures kind { result.kind ≡ self.now.block.kind }
        ensures frame { result.frame ≡ ((links self.now.section.now self.now.block).initial (number_of_track track)).frame }
        ensures at { result.at ≡ ((links self.now.section.now self.now.block).initial (number_of_track track)).body }
    {
        Key {
            section: self.section,
            kind: self.block.kind,
            frame: self.first_frame(track),
            at: self.first_body(track),
        }
    }

    // The key of the additional record at a position.
    #[tactic(auto, using(crate::proofs::Places::places), unfolding(clip::specs::Section::additional_at))]
    pub fn key(&self, p: usize) -> Key<'a>
        requires { p < self.now.block.records.count }
        ensures section { result.section.now ≡ self.now.section.now }
        ensures kind { result.kind ≡ self.now.block.kind }
        ensures frame { result.frame ≡ ((links self.now.section.now self.now.block).at p).frame }
        ensures at { result.at ≡ ((links self.now.section.now self.now.block).at p).body }
    {
        Key {
            section: self.section,
            kind: self.block.kind,
            frame: self.frame_at(p),
            at: self.body_at(p),
        }
    }
}
