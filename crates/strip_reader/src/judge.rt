// A strip judged track by track. Whether a frame is repeated needs a space for frames only where a track's frames do not rise; a judge that
// is lent none stops there.
ghost use Rattle.std.specs.Prelude.{◌≡◌, ◌≤◌, [], drop};
ghost use Rattle.section.specs.Limits.{edition1};
ghost use Rattle.strip.specs.Strip.{count_width};
ghost use Rattle.blocks.specs.Kind.{kind_of};
ghost use Rattle.strip_reader.specs.Front.{number};
ghost use Rattle.strip_reader.specs.Key.{form_of};
ghost use Rattle.strip_reader.specs.Read.{keys, track, tracks};
ghost use Rattle.strip_reader.specs.Judge.{count_read, Finds, Judges, JudgesTrack, JudgesStrip, Counted};

use crate::counts::StripCounts;
use crate::front::Read;
use crate::refusal::ReaderRefusal;
use crate::{pass, repeated};
use blocks::kind::Kind;
use section::limits::EDITION_1;

#[derive(Clone, Copy)]
pub enum Stop {
    Refused(ReaderRefusal),
    // There is no space to look for repeated frames.
    NoSpace,
}

// A count u16.
#[tactic(auto, using(crate::proofs::Fronts::counts))]
pub fn read_count(strip: &[u8], at: usize) -> Read<u16>
    ensures { count_read strip.now result ≡ number count_width (drop at strip.now) }
{
    if strip.len().saturating_sub(at) < 2 {
        return Err(ReaderRefusal::NotWhole);
    }
    Ok((u16::from_le_bytes([strip[at], strip[at + 1]]), at + 2))
}

// The keys of a track passed, and whether a frame is repeated among those that were read.
#[derive(Clone, Copy)]
pub struct KeysFound {
    pub end: Result<usize, ReaderRefusal>,
    pub repeated: bool,
}

#[tactic(auto, using(crate::proofs::RepeatedFrames::finding))]
fn find_keys(
    kind: Kind,
    strip: &[u8],
    at: usize,
    count: u32,
    space: &mut [u32],
) -> Result<KeysFound, Stop>
    ensures { Finds (form_of (kind_of kind)) count space.old strip.now at result }
{
    let pass = pass::pass_keys(kind, strip, at, count);
    if pass.rise {
        return Ok(KeysFound {
            end: pass.end,
            repeated: false,
        });
    }
    if space.is_empty() {
        return Err(Stop::NoSpace);
    }
    let repeated = repeated::any_repeated(kind, strip, at, pass.read, space);
    Ok(KeysFound {
        end: pass.end,
        repeated,
    })
}

// So many keys of a track.
#[tactic(auto, using(crate::proofs::RepeatedFrames::judging))]
fn judge_keys(
    kind: Kind,
    strip: &[u8],
    at: usize,
    count: u32,
    space: &mut [u32],
) -> Result<usize, Stop>
    ensures { Judges space.old strip.now count result (keys (form_of (kind_of kind)) count [] (drop at strip.now)) }
{
    let found = find_keys(kind, strip, at, count, space)?;
    if found.repeated {
        return Err(Stop::Refused(ReaderRefusal::NeverWritten));
    }
    match found.end {
        Ok(next) => Ok(next),
        Err(why) => Err(Stop::Refused(why)),
    }
}

// A track behind others with so many additional keys; answers how many they are with this one's.
#[tactic(auto, using(crate::proofs::JudgedTracks::judging_track))]
fn judge_track(
    kind: Kind,
    strip: &[u8],
    at: usize,
    additional: u32,
    space: &mut [u32],
) -> Result<(u32, usize), Stop>
    requires { additional ≤ edition1.additional }
    ensures { JudgesTrack space.old strip.now additional result (track (form_of (kind_of kind)) edition1 count_width additional (drop at strip.now)) }
{
    let (count, first) = match read_count(strip, at) {
        Ok(read) => read,
        Err(why) => return Err(Stop::Refused(why)),
    };
    let count = u32::from(count);
    let next = judge_keys(kind, strip, first, count, space)?;
    if count == 0 {
        return Err(Stop::Refused(ReaderRefusal::NeverWritten));
    }
    let sum = additional + (count - 1);
    if EDITION_1.additional < sum {
        return Err(Stop::Refused(ReaderRefusal::NeverWritten));
    }
    Ok((sum, next))
}

// So many tracks.
fn judge_tracks(
    kind: Kind,
    strip: &[u8],
    at: usize,
    count: u32,
    space: &mut [u32],
) -> Result<usize, Stop>
    ensures { Judges space.old strip.now count result (tracks (form_of (kind_of kind)) edition1 count_width count 0 (drop at strip.now)) }
{
    let mut next = at;
    let mut additional = 0;
    'tracks: for _ in 0..count {
        match judge_track(kind, strip, next, additional, space) {
            Ok((sum, behind)) => {
                additional = sum;
                next = behind;
            }
            Err(why) => return Err(why),
        }
    }
    Ok(next)
}

// Both kinds of tracks, and nothing left over.
fn judge_kinds(
    strip: &[u8],
    at: usize,
    bones: u32,
    morphs: u32,
    space: &mut [u32],
) -> Result<StripCounts, Stop>
    requires { Counted strip.now at bones morphs }
    ensures { JudgesStrip space.old strip.now result }
{
    let at = match judge_tracks(Kind::Bone, strip, at, bones, space) {
        Ok(next) => next,
        Err(why) => return Err(why),
    };
    let at = match judge_tracks(Kind::Morph, strip, at, morphs, space) {
        Ok(next) => next,
        Err(why) => return Err(why),
    };
    if at < strip.len() {
        return Err(Stop::Refused(ReaderRefusal::NotWhole));
    }
    Ok(StripCounts { bones, morphs })
}

#[tactic(auto, using(crate::proofs::JudgedStrips::counts_judged))]
pub fn judge(strip: &[u8], space: &mut [u32]) -> Result<StripCounts, Stop>
    ensures { JudgesStrip space.old strip.now result }
{
    if EDITION_1.bytes < strip.len() {
        return Err(Stop::Refused(ReaderRefusal::TooLong));
    }
    let (bones, at) = match read_count(strip, 0) {
        Ok(read) => read,
        Err(why) => return Err(Stop::Refused(why)),
    };
    let (morphs, at) = match read_count(strip, at) {
        Ok(read) => read,
        Err(why) => return Err(Stop::Refused(why)),
    };
    judge_kinds(strip, at, u32::from(bones), u32::from(morphs), space)
}
