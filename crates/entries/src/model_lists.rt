// The lists of a model record: a bool for each constraint, a pair for each outside parent.
ghost use Rattle.std.specs.Prelude.{◌≡◌};
ghost use Rattle.binary.specs.Answers.{answer_read};
ghost use Rattle.section.specs.Limits.{edition1};
ghost use Rattle.entries.specs.ModelLists.{pair_of, model_keyframe_constraint_state, model_keyframe_outside_parent};

use crate::lists::Entries;
use crate::{keyframes, lists};
use binary::refusal::Refusal;
use binary::{groups, numbers};
use records::items;

#[derive(Clone, Copy)]
pub struct PmmDocumentOutsideParentIndexSummary {
    pub parent_model_index: i32,
    pub parent_model_bone_index: i32,
}

impl From<[u32; 2]> for PmmDocumentOutsideParentIndexSummary {
    ghost from_gives = { λ bits pair. pair ≡ pair_of bits };

    #[tactic(auto, unfolding(crate::specs::ModelLists::pair_of))]
    fn from(bits: [u32; 2]) -> PmmDocumentOutsideParentIndexSummary {
        let [model, bone] = bits;
        PmmDocumentOutsideParentIndexSummary {
            parent_model_index: model.cast_signed(),
            parent_model_bone_index: bone.cast_signed(),
        }
    }
}

// Bool `entry` of model record `number`. This call and the next differ in the list, its items and the reader of one, and share the record's
// reading: a trait for the two would be longer.
#[tactic(auto, using(crate::proofs::ModelRecords::model_keyframe_constraint_state_is))]
pub fn model_keyframe_constraint_state(
    section: &[u8],
    start: usize,
    include_index: bool,
    number: usize,
    entry: usize,
) -> Result<bool, Refusal>
    ensures { answer_read result ≡ model_keyframe_constraint_state edition1 include_index number entry section.now start }
{
    let (record, _) = keyframes::read_model_record(section, start, include_index, number)?;
    let flags = Entries {
        count: record.counts.constraints,
        offset: record.bits.constraint_states_offset,
        items: items::constraint_state_items(),
    };
    let at = lists::entry(section, &flags, entry)?;
    let (flag, _) = numbers::read_bool(section, at)?;
    Ok(flag)
}

// Pair `entry` of model record `number`.
#[tactic(auto, using(crate::proofs::ModelRecords::model_keyframe_outside_parent_is))]
pub fn model_keyframe_outside_parent(
    section: &[u8],
    start: usize,
    include_index: bool,
    number: usize,
    entry: usize,
) -> Result<PmmDocumentOutsideParentIndexSummary, Refusal>
    ensures { answer_read result ≡ model_keyframe_outside_parent edition1 include_index number entry section.now start }
{
    let (record, _) = keyframes::read_model_record(section, start, include_index, number)?;
    let pairs = Entries {
        count: record.counts.parents,
        offset: record.bits.outside_parent_indices_offset,
        items: items::pair_items(),
    };
    let at = lists::entry(section, &pairs, entry)?;
    let (pair, _) = groups::read_u32s_le(section, at)?;
    Ok(PmmDocumentOutsideParentIndexSummary::from(pair))
}
