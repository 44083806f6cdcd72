// A track of a strip by its kind and number, and how many keys it has.
ghost use Rattle.std.specs.Prelude.{◌≡◌, List, ℕ, length, drop};
ghost use Rattle.layout.specs.Walk.{answered};
ghost use Rattle.section.specs.Limits.{edition1};
ghost use Rattle.clip.specs.Fields.{bone, morph};
ghost use Rattle.strip.specs.Strip.{count_width, FieldsKey};
ghost use Rattle.blocks.specs.Kind.{kind_of};
ghost use Rattle.blocks.specs.Track.{kind_of_track, number_of_track};
ghost use Rattle.strip_reader.specs.Key.{form_of};
ghost use Rattle.strip_reader.specs.Answers.{counts as counts_of};
ghost use Rattle.strip_reader.specs.Stands.{TracksAt};
ghost use Rattle.strip_reader.specs.Tracks.{FindsTrack, FindsInAccepted, FindsInStrip};
ghost use Rattle.strip_reader.specs.Run.{KeyCountCall};

use crate::counts::StripCounts;
use crate::front::TRACKS;
use crate::refusal::ReaderRefusal;
use crate::{counts, find, judge};
use blocks::kind::Kind;
use blocks::track::TrackIndex;

// Of so many tracks of one kind.
#[tactic(auto, using(crate::proofs::TrackFound::of_kind))]
fn find_of_kind(kind: Kind, strip: &[u8], at: usize, count: u32, number: u32) -> Option<usize>
    ensures { (tracks : List (List FieldsKey)) (behind : List ℕ) → TracksAt (form_of (kind_of kind)) tracks (drop at strip.now) behind → length tracks ≡ count → FindsTrack (form_of (kind_of kind)) tracks number strip.now result }
{
    if count <= number {
        return None;
    }
    find::skip_tracks(kind, strip, at, number)
}

// In a strip with these counts.
#[tactic(auto, using(crate::proofs::TrackFound::in_accepted))]
fn find_bones(strip: &[u8], counts: StripCounts, number: u32) -> Option<usize>
    requires { answered counts ≡ counts_of edition1 count_width strip.now }
    ensures { FindsInAccepted strip.now bone number result }
{
    find_of_kind(Kind::Bone, strip, TRACKS, counts.bones, number)
}

#[tactic(auto, using(crate::proofs::TrackFound::in_accepted))]
fn find_morphs(strip: &[u8], counts: StripCounts, number: u32) -> Option<usize>
    requires { answered counts ≡ counts_of edition1 count_width strip.now }
    ensures { FindsInAccepted strip.now morph number result }
{
    match find::skip_tracks(Kind::Bone, strip, TRACKS, counts.bones) {
        Some(at) => find_of_kind(Kind::Morph, strip, at, counts.morphs, number),
        None => None,
    }
}

#[tactic(auto, using(crate::proofs::TrackFound::in_strip))]
pub fn find_track(strip: &[u8], track: TrackIndex) -> Result<usize, ReaderRefusal>
    ensures { FindsInStrip strip.now (kind_of (kind_of_track track)) (number_of_track track) result }
{
    let counts = counts::counts(strip)?;
    let found = match track {
        TrackIndex::Bone(bone) => find_bones(strip, counts, bone.0),
        TrackIndex::Morph(morph) => find_morphs(strip, counts, morph.0),
    };
    found.ok_or(ReaderRefusal::Absent)
}

#[tactic(auto, using(crate::proofs::TrackFound::counted))]
pub fn key_count(strip: &[u8], track: TrackIndex) -> Result<u32, ReaderRefusal>
    ensures { KeyCountCall strip.now track result }
{
    let at = find_track(strip, track)?;
    match judge::read_count(strip, at) {
        Ok((count, _)) => Ok(u32::from(count)),
        Err(why) => Err(why),
    }
}
