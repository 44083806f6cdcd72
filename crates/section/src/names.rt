// Bone and morph names, and the lists that are skipped: a count, and as many entries.
ghost use Rattle.std.specs.Prelude.{◌≡◌};
ghost use Rattle.binary.specs.Answers.{read};
ghost use Rattle.section.specs.Model.{names, counted_block, counts};
ghost use Rattle.section.specs.Limits.{edition1};

use crate::limits::EDITION_1;
use binary::counts::UNLIMITED;
use binary::refusal::Read;
use binary::{counts, numbers, strings};

// How many names there are, and the first one's offset.
#[derive(Clone, Copy)]
pub struct Names {
    pub count: u32,
    pub offset: usize,
}

#[derive(Clone, Copy)]
pub struct Counts {
    pub bones: Names,
    pub morphs: Names,
    pub constraints: u32,
    pub parents: u32,
}

#[tactic(auto, unfolding(crate::specs::Model::names))]
pub fn read_names(s: &[u8], at: usize, limit: u32) -> Read<Names>
    ensures { read result ≡ names limit s.now at }
{
    let (count, offset) = counts::read_count(s, at, limit)?;
    let next = strings::skip_strings(s, offset, count)?;
    Ok((Names { count, offset }, next))
}

#[tactic(auto, unfolding(crate::specs::Model::counted_block))]
pub fn read_counted_block(s: &[u8], at: usize) -> Read<u32>
    ensures { read result ≡ counted_block s.now at }
{
    let (count, body) = counts::read_count(s, at, UNLIMITED)?;
    let next = numbers::skip(s, body, 4 * (count as usize))?;
    Ok((count, next))
}

#[tactic(auto, unfolding(crate::specs::Model::counts))]
pub fn read_counts(s: &[u8], at: usize) -> Read<Counts>
    ensures { read result ≡ counts edition1 s.now at }
{
    let (bones, at) = read_names(s, at, EDITION_1.tracks)?;
    let (morphs, at) = read_names(s, at, EDITION_1.tracks)?;
    let (constraints, at) = read_counted_block(s, at)?;
    let (parents, next) = read_counted_block(s, at)?;
    let counts = Counts {
        bones,
        morphs,
        constraints,
        parents,
    };
    Ok((counts, next))
}
