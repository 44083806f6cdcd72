// The keyframe blocks of a section: initial records, the count of additional ones, additional records.
ghost use Rattle.std.specs.Prelude.{◌≡◌};
ghost use Rattle.binary.specs.Answers.{read};
ghost use Rattle.binary.specs.Items.{widths};
ghost use Rattle.section.specs.Model.{keyframes, keyframe_blocks};
ghost use Rattle.section.specs.Limits.{edition1};

use crate::limits::EDITION_1;
use crate::names::Counts;
use binary::blocks::Items;
use binary::counts::UNLIMITED;
use binary::refusal::Read;
use binary::{blocks, counts};
use records::items;

#[derive(Clone, Copy)]
pub struct Keyframes {
    pub initial_offset: usize,
    pub count_offset: usize,
    pub offset: usize,
    pub end_offset: usize,
    pub count: u32,
}

#[derive(Clone, Copy)]
pub struct KeyframeBlocks {
    pub bones: Keyframes,
    pub morphs: Keyframes,
    pub models: Keyframes,
}

#[tactic(auto, unfolding(crate::specs::Model::keyframes))]
pub fn read_keyframes(
    s: &[u8],
    at: usize,
    tracks: u32,
    initial_items: &Items,
    additional_items: &Items,
    limit: u32,
) -> Read<Keyframes>
    ensures { read result ≡ keyframes tracks (widths initial_items.now) (widths additional_items.now) limit s.now at }
{
    let count_offset = blocks::skip_records(s, at, tracks, initial_items)?;
    let (count, offset) = counts::read_count(s, count_offset, limit)?;
    let end_offset = blocks::skip_records(s, offset, count, additional_items)?;
    let keyframes = Keyframes {
        initial_offset: at,
        count_offset,
        offset,
        end_offset,
        count,
    };
    Ok((keyframes, end_offset))
}

#[tactic(auto, unfolding(crate::specs::Model::keyframe_blocks))]
pub(crate) fn read_keyframe_blocks(s: &[u8], at: usize, counts: Counts) -> Read<KeyframeBlocks>
    ensures { read result ≡ keyframe_blocks edition1 counts s.now at }
{
    let limit = EDITION_1.additional;
    let (first, more) = (items::bone_items(2), items::bone_items(3));
    let (bones, at) = read_keyframes(s, at, counts.bones.count, &first, &more, limit)?;
    let (first, more) = (items::morph_items(2), items::morph_items(3));
    let (morphs, at) = read_keyframes(s, at, counts.morphs.count, &first, &more, limit)?;
    // A model has one track of its own.
    let (constraints, parents) = (counts.constraints, counts.parents);
    let first = items::model_items(2, constraints, parents);
    let more = items::model_items(3, constraints, parents);
    let (models, next) = read_keyframes(s, at, 1, &first, &more, UNLIMITED)?;
    let blocks = KeyframeBlocks {
        bones,
        morphs,
        models,
    };
    Ok((blocks, next))
}
