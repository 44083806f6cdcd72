// The states of bones, morphs, constraints and outside parents.
ghost use Rattle.std.specs.Prelude.{◌≡◌};
ghost use Rattle.binary.specs.Answers.{answer_read};
ghost use Rattle.section.specs.Limits.{edition1};
ghost use Rattle.entries.specs.States.{bone_state, morph_state, constraint_state, outside_parent_state};

use crate::lists;
use crate::lists::SectionList;
use binary::refusal::Refusal;
use binary::{groups, numbers};
use records::states;
use records::states::{
    PmmDocumentBoneStateSummary, PmmDocumentMorphStateSummary, PmmDocumentOutsideParentStateSummary,
};

// Four calls of three lines each: a trait with the list and the reader, and four impls of it, would be longer.
#[tactic(auto, unfolding(layout::specs::Walk::entry_of))]
pub fn bone_state(
    section: &[u8],
    start: usize,
    number: usize,
) -> Result<PmmDocumentBoneStateSummary, Refusal>
    ensures { answer_read result ≡ bone_state edition1 number section.now start }
{
    let (_, at) = lists::locate(section, start, SectionList::BoneStates, number)?;
    let (bits, _) = states::read_bone_state(section, at)?;
    Ok(PmmDocumentBoneStateSummary::from(bits))
}

#[tactic(auto, unfolding(layout::specs::Walk::entry_of))]
pub fn morph_state(
    section: &[u8],
    start: usize,
    number: usize,
) -> Result<PmmDocumentMorphStateSummary, Refusal>
    ensures { answer_read result ≡ morph_state edition1 number section.now start }
{
    let (_, at) = lists::locate(section, start, SectionList::MorphStates, number)?;
    let (bits, _) = numbers::read_u32_le(section, at)?;
    Ok(PmmDocumentMorphStateSummary::from(bits))
}

// A constraint's state is whether it is enabled.
#[tactic(auto, unfolding(layout::specs::Walk::entry_of))]
pub fn constraint_state(section: &[u8], start: usize, number: usize) -> Result<bool, Refusal>
    ensures { answer_read result ≡ constraint_state edition1 number section.now start }
{
    let (_, at) = lists::locate(section, start, SectionList::ConstraintStates, number)?;
    let (enabled, _) = numbers::read_bool(section, at)?;
    Ok(enabled)
}

#[tactic(auto, unfolding(layout::specs::Walk::entry_of))]
pub fn outside_parent_state(
    section: &[u8],
    start: usize,
    number: usize,
) -> Result<PmmDocumentOutsideParentStateSummary, Refusal>
    ensures { answer_read result ≡ outside_parent_state edition1 number section.now start }
{
    let (_, at) = lists::locate(section, start, SectionList::OutsideParentStates, number)?;
    let (bits, _) = groups::read_u32s_le::<4>(section, at)?;
    Ok(PmmDocumentOutsideParentStateSummary::from(bits))
}
