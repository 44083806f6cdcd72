// The records of one kind, where they stand in the section, and their numbers.
ghost use Rattle.std.specs.Prelude.{◌≡◌, ◌+◌, ◌*◌, ◌<◌, ◌≤◌, length};
ghost use Rattle.layout.specs.Walk.{u32_at};
ghost use Rattle.blocks.specs.Track.{number_of_track};
ghost use Rattle.blocks.specs.Block.{Fits, TrackOf, links};

use crate::kind::Kind;
use crate::track::TrackIndex;
use binary::numbers;
use order::field::Field;

// The frames of the initial records, one a track, and the indices of the additional records: the first number of each.
#[derive(Clone, Copy)]
pub struct Block {
    pub kind: Kind,
    pub initials: Field,
    pub records: Field,
}

// The records in the lent bytes.
#[derive(Clone, Copy)]
pub struct Records<'a> {
    pub section: &'a [u8],
    pub block: Block,
    pub ghost fits: { Fits section.now block },
}

// Where a record begins.
fn place(f: Field, p: usize) -> usize
    requires { f.offset + p * f.width < 18446744073709551616 }
    ensures { result ≡ f.offset + p * f.width }
{
    f.offset + p * f.width
}

#[tactic(auto, unfolding(clip::specs::Section::additional_at, clip::specs::Section::initial_at))]
impl<'a> Records<'a> {
    // A number of a record, so many bytes behind its first one.
    fn number(&self, f: Field, p: usize, bytes: usize) -> u32
        requires { f.offset + p * f.width + bytes + 4 ≤ length self.now.section.now }
        ensures { result ≡ u32_at self.now.section.now (f.offset + p * f.width + bytes) }
    {
        numbers::u32_at(self.section, place(f, p) + bytes)
    }

    // The numbers of the additional record at a position. That it is below the count is asked as a slice asks it of an index: a struct of
    // the records and a position would be made anew at each link, to be asked once.
    pub fn index_at(&self, p: usize) -> u32
        requires { p < self.now.block.records.count }
        ensures { result ≡ ((links self.now.section.now self.now.block).at p).index }
    {
        self.number(self.block.records, p, 0)
    }

    pub fn frame_at(&self, p: usize) -> u32
        requires { p < self.now.block.records.count }
        ensures { result ≡ ((links self.now.section.now self.now.block).at p).frame }
    {
        self.number(self.block.records, p, 4)
    }

    pub fn previous_at(&self, p: usize) -> u32
        requires { p < self.now.block.records.count }
        ensures { result ≡ ((links self.now.section.now self.now.block).at p).previous }
    {
        self.number(self.block.records, p, 8)
    }

    pub fn next_at(&self, p: usize) -> u32
        requires { p < self.now.block.records.count }
        ensures { result ≡ ((links self.now.section.now self.now.block).at p).next }
    {
        self.number(self.block.records, p, 12)
    }

    // Where a record's body begins: behind its links.
    pub fn body_at(&self, p: usize) -> usize
        requires { p < self.now.block.records.count }
        ensures { result ≡ ((links self.now.section.now self.now.block).at p).body }
    {
        place(self.block.records, p) + 16
    }

    pub fn track(&self, number: usize) -> TrackIndex
        requires { number < self.now.block.initials.count }
        ensures is_track { TrackOf self.now.block result }
        ensures number { number_of_track result ≡ number }
    {
        TrackIndex::new(self.block.kind, number as u32)
    }

    // The numbers of a track's initial record.
    pub fn first_frame(&self, track: TrackIndex) -> u32
        requires { TrackOf self.now.block track }
        ensures { result ≡ ((links self.now.section.now self.now.block).initial (number_of_track track)).frame }
    {
        self.number(self.block.initials, track.number() as usize, 0)
    }

    pub fn first_link(&self, track: TrackIndex) -> u32
        requires { TrackOf self.now.block track }
        ensures { result ≡ ((links self.now.section.now self.now.block).initial (number_of_track track)).next }
    {
        self.number(self.block.initials, track.number() as usize, 8)
    }

    pub fn first_body(&self, track: TrackIndex) -> usize
        requires { TrackOf self.now.block track }
        ensures { result ≡ ((links self.now.section.now self.now.block).initial (number_of_track track)).body }
    {
        place(self.block.initials, track.number() as usize) + 12
    }
}
