// The tracks as MMD writes them: chains that end, frames that rise and keys that meet nothing. One pass finds that out and makes the marks.
// Where it finds anything else it stops, and what is met first is looked for again in document 01's order.
ghost use Rattle.std.specs.Prelude.{true, ◌≡◌, ◌<◌, length, replicate};
ghost use Rattle.blocks.specs.Track.{number_of_track};
ghost use Rattle.blocks.specs.Block.{TrackOf};
ghost use Rattle.marks.specs.Rising.{StandsBehind, TracksMarked};

use blocks::block::Records;
use blocks::track::TrackIndex;
use chains::lookup::Indexed;
use chains::near::Near;
use track_keys::{key, ready};

// The frame of a record that stands rightly behind a key: its previous link, a later frame, and a key that meets nothing.
fn behind(records: &Records, track: TrackIndex, p: usize, expected: u32, frame: u32) -> Option<u32>
    requires is_track { TrackOf records.now.block track }
    requires p_lt_count { p < records.now.block.records.count }
    ensures { StandsBehind records.now.section.now records.now.block (number_of_track track) p expected frame result }
{
    if records.previous_at(p) != expected {
        return None;
    }
    let here = records.key(p);
    if here.frame <= frame {
        return None;
    }
    match key::key(&here, track, false) {
        Ok(()) => Some(here.frame),
        Err(_) => None,
    }
}

// Nested loops over tracks and the keys of their chains, left by the label where anything else is found, as document 01 names them ("Forms
// by place in the code"). A chain may not end, so its links are looked up and tested one by one. The slice's length is a clause here and
// below, since these functions write it.
fn mark_tracks(indexed: &Indexed, marks: &mut [u16]) -> Option<usize>
    requires { marks.old ≡ replicate indexed.now.records.block.records.count 0 }
    ensures tracks_marked { TracksMarked indexed.now.records.section.now indexed.now.records.block marks.new result }
    ensures marks_len_unchanged { length marks.new ≡ length marks.old }
{
    // A copy, so that the marks written do not make the processor read it again.
    let indexed = *indexed;
    let records = &indexed.records;
    let mut rising = true;
    let mut reached = 0;
    'tracks: for number in 0..records.block.initials.count {
        let track = records.track(number);
        if ready::initial_key(records, track).is_err() {
            rising = false;
            break 'tracks;
        }
        let mark = (number + 1) as u16;
        let mut frame = records.first_frame(track);
        let mut link = records.first_link(track);
        let mut expected = track.number();
        let mut near = Near::default();
        while link != 0 {
            let Some(step) = indexed.step(link, near) else {
                rising = false;
                break 'tracks;
            };
            let Some(later) = behind(records, track, step.position, expected, frame) else {
                rising = false;
                break 'tracks;
            };
            marks[step.position] = mark;
            reached += 1;
            expected = link;
            frame = later;
            near = step.near;
            link = step.next;
        }
    }
    if rising { Some(reached) } else { None }
}

// How many links were followed, if nothing else was found.
pub fn mark_rising(indexed: &Indexed, marks: &mut [u16]) -> Option<usize>
    requires { length marks.old ≡ indexed.now.records.block.records.count }
    ensures tracks_marked { TracksMarked indexed.now.records.section.now indexed.now.records.block marks.new result }
    ensures marks_len_unchanged { length marks.new ≡ length marks.old }
{
    marks.fill(0);
    mark_tracks(indexed, marks)
}
