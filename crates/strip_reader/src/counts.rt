// How many tracks a strip has of each kind.
ghost use Rattle.strip_reader.specs.Run.{CountsCall};

use crate::judge;
use crate::judge::Stop;
use crate::refusal::ReaderRefusal;

#[derive(Clone, Copy, Debug, PartialEq, Eq)]
pub struct StripCounts {
    pub bones: u32,
    pub morphs: u32,
}

// How many frames are kept at once of a track whose frames do not rise: 4 KB.
const FRAMES: usize = 1024;

// The space is cleared when it is made, so it is made only where a track needs it.
#[tactic(auto, using(crate::proofs::Judgements::calls))]
fn counts_with_space(strip: &[u8]) -> Result<StripCounts, ReaderRefusal>
    ensures { CountsCall strip.now result }
{
    let mut space = [0; FRAMES];
    match judge::judge(strip, &mut space) {
        Ok(counts) => Ok(counts),
        Err(Stop::Refused(why)) => Err(why),
        Err(Stop::NoSpace) => Err(ReaderRefusal::NeverWritten),
    }
}

// Every call judges the whole strip by this one.
#[tactic(auto, using(crate::proofs::Judgements::calls))]
pub fn counts(strip: &[u8]) -> Result<StripCounts, ReaderRefusal>
    ensures { CountsCall strip.now result }
{
    match judge::judge(strip, &mut []) {
        Ok(counts) => Ok(counts),
        Err(Stop::Refused(why)) => Err(why),
        Err(Stop::NoSpace) => counts_with_space(strip),
    }
}
