// A camera or light section: initial record, count, additional records, a skipped block of state.
ghost use Rattle.std.specs.Prelude.{◌≡◌};
ghost use Rattle.layout.specs.Walk.{unlimited};
ghost use Rattle.layout.specs.Records.{initial, additional};
ghost use Rattle.binary.specs.Answers.{read, skipped, answer_read};
ghost use Rattle.section.specs.Limits.{edition1};
ghost use Rattle.section.specs.Model.{keyframes as keyframes_of};
ghost use Rattle.entries.specs.Lists.{entry_at};
ghost use Rattle.camera_light.specs.Track.{items_of, state_of, track_parts, track_section, track_entries, track_of, track_summary, locate as locate_of};
ghost use Rattle.camera_light.specs.declared.track.Kind.{Kind};

use crate::items;
use binary::counts::UNLIMITED;
use binary::numbers;
use binary::refusal::{Read, Refusal};
use entries::lists::Entries;
use section::keyframes;
use section::keyframes::Keyframes;
use section::limits::EDITION_1;

#[derive(Clone, Copy)]
pub enum Kind {
    Camera,
    Light,
}

#[derive(Clone, Copy)]
pub struct Track {
    pub keyframes: Keyframes,
    pub state_offset: usize,
}

// The Rust's summary of a camera or light section; its records are answered by number.
#[derive(Clone, Copy)]
pub struct PmmDocumentTrackSummary {
    pub offset: usize,
    pub offset_end: usize,
    pub initial_keyframes: usize,
    pub keyframes: usize,
    pub keyframe_count_offset: usize,
    pub keyframes_offset: usize,
    pub keyframes_end_offset: usize,
    pub state_offset: usize,
    pub state_end_offset: usize,
}

fn state_size(kind: Kind) -> usize
    ensures { result ≡ state_of kind }
{
    match kind {
        Kind::Camera => 37,
        Kind::Light => 24,
    }
}

fn read_records(s: &[u8], at: usize, kind: Kind) -> Read<Keyframes>
    ensures { read result ≡ keyframes_of 1 (initial (items_of kind)) (additional (items_of kind)) unlimited s.now at }
{
    let initial_items = items::record_items(kind, 2);
    let additional_items = items::record_items(kind, 3);
    keyframes::read_keyframes(s, at, 1, &initial_items, &additional_items, UNLIMITED)
}

#[tactic(auto, unfolding(crate::specs::Track::track_parts))]
fn read_parts(s: &[u8], start: usize, kind: Kind) -> Read<Track>
    ensures { read result ≡ track_parts kind s.now start }
{
    let (keyframes, state_offset) = read_records(s, start, kind)?;
    let next = numbers::skip(s, state_offset, state_size(kind))?;
    let track = Track {
        keyframes,
        state_offset,
    };
    Ok((track, next))
}

#[tactic(auto, unfolding(crate::specs::Track::track_section))]
pub fn read_track(s: &[u8], start: usize, kind: Kind) -> Read<Track>
    ensures { read result ≡ track_section edition1 kind s.now start }
{
    if EDITION_1.bytes < s.len() {
        return Err(Refusal::TooLong);
    }
    read_parts(s, start, kind)
}

#[tactic(auto, unfolding(crate::specs::Track::track_of))]
fn summary(offset: usize, t: Track, offset_end: usize) -> PmmDocumentTrackSummary
    ensures { result ≡ track_of offset t offset_end }
{
    let keyframes = t.keyframes;
    PmmDocumentTrackSummary {
        offset,
        offset_end,
        initial_keyframes: 1,
        keyframes: keyframes.count as usize,
        keyframe_count_offset: keyframes.count_offset,
        keyframes_offset: keyframes.offset,
        keyframes_end_offset: keyframes.end_offset,
        state_offset: t.state_offset,
        state_end_offset: offset_end,
    }
}

// Of a camera or a light section.
#[tactic(auto, unfolding(crate::specs::Track::track_summary))]
pub fn read_document_track_summary(
    section: &[u8],
    start: usize,
    kind: Kind,
) -> Result<PmmDocumentTrackSummary, Refusal>
    ensures { answer_read result ≡ track_summary edition1 kind section.now start }
{
    let (t, end) = read_track(section, start, kind)?;
    Ok(summary(start, t, end))
}

#[tactic(auto, unfolding(crate::specs::Track::track_entries))]
fn entry(
    s: &[u8],
    t: Track,
    kind: Kind,
    include_index: bool,
    number: usize,
) -> Result<usize, Refusal>
    ensures { skipped result ≡ entry_at (track_entries kind include_index t) number s.now }
{
    let keyframes = t.keyframes;
    let entries = if include_index {
        Entries {
            count: keyframes.count,
            offset: keyframes.offset,
            items: items::record_items(kind, 3),
        }
    } else {
        Entries {
            count: 1,
            offset: keyframes.initial_offset,
            items: items::record_items(kind, 2),
        }
    };
    entries::lists::entry(s, &entries, number)
}

// The section, and the offset of a record of it.
#[tactic(auto, unfolding(crate::specs::Track::locate))]
pub(crate) fn locate(
    s: &[u8],
    start: usize,
    kind: Kind,
    include_index: bool,
    number: usize,
) -> Read<Track>
    ensures { read result ≡ locate_of edition1 kind include_index number s.now start }
{
    let (t, _) = read_track(s, start, kind)?;
    let at = entry(s, t, kind, include_index, number)?;
    Ok((t, at))
}
