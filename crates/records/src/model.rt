// A model record and its summary. Its bools and pairs are answered by number elsewhere.
ghost use Rattle.std.specs.Prelude.{◌≡◌};
ghost use Rattle.binary.specs.Answers.{read};
ghost use Rattle.records.specs.Keyframes.{model_bits, model_of};

use crate::base::{BaseBits, PmmDocumentBaseKeyframeSummary, Span};
use crate::{base, items};
use binary::refusal::Read;
use binary::{blocks, numbers};

#[derive(Clone, Copy)]
pub struct ModelBits {
    pub base: BaseBits,
    pub visible: bool,
    pub self_shadow_enabled: bool,
    pub constraint_states_offset: usize,
    pub outside_parent_indices_offset: usize,
    pub self_shadow_enabled_offset: usize,
}

#[derive(Clone, Copy)]
pub struct PmmDocumentModelKeyframeSummary {
    pub base: PmmDocumentBaseKeyframeSummary,
    pub visible: bool,
    pub self_shadow_enabled: bool,
    pub visible_offset: usize,
    pub constraint_state_count: usize,
    pub constraint_states_offset: usize,
    pub constraint_states_byte_length: usize,
    pub outside_parent_index_count: usize,
    pub outside_parent_indices_offset: usize,
    pub outside_parent_indices_byte_length: usize,
    pub self_shadow_enabled_offset: usize,
    pub span: Span,
}

// Two numbers by name, as the table of records has them (layout, the model's C and P): a struct of the two would be made anew where a
// section's counts are at hand, to be taken apart here.
#[tactic(auto, unfolding(crate::specs::Keyframes::model_bits))]
pub fn read_model_record(
    s: &[u8],
    at: usize,
    include_index: bool,
    constraints: u32,
    parents: u32,
) -> Read<ModelBits>
    ensures { read result ≡ model_bits include_index constraints parents s.now at }
{
    let (base, at) = base::read_base(s, at, include_index)?;
    let (visible, constraint_states_offset) = numbers::read_bool(s, at)?;
    let bools = items::constraint_state_items();
    let outside_parent_indices_offset = blocks::skip_records(
        s,
        constraint_states_offset,
        constraints,
        &bools,
    )?;
    let pairs = items::pair_items();
    let self_shadow_enabled_offset = blocks::skip_records(
        s,
        outside_parent_indices_offset,
        parents,
        &pairs,
    )?;
    let (self_shadow_enabled, next) = numbers::read_bool(s, self_shadow_enabled_offset)?;
    let bits = ModelBits {
        base,
        visible,
        self_shadow_enabled,
        constraint_states_offset,
        outside_parent_indices_offset,
        self_shadow_enabled_offset,
    };
    Ok((bits, next))
}

impl ModelBits {
    // The summary of a record that stands from `offset` to `end`, in a section of that many constraints and outside parents.
    #[tactic(auto, unfolding(crate::specs::Keyframes::model_of))]
    pub fn summary(
        self,
        constraints: u32,
        parents: u32,
        offset: usize,
        end: usize,
    ) -> PmmDocumentModelKeyframeSummary
        ensures { result ≡ model_of constraints parents self offset end }
    {
        let bools = self.constraint_states_offset;
        let pairs = self.outside_parent_indices_offset;
        let shadow = self.self_shadow_enabled_offset;
        PmmDocumentModelKeyframeSummary {
            base: self.base.summary(),
            visible: self.visible,
            self_shadow_enabled: self.self_shadow_enabled,
            visible_offset: self.base.payload_offset,
            constraint_state_count: constraints as usize,
            constraint_states_offset: bools,
            constraint_states_byte_length: pairs.saturating_sub(bools),
            outside_parent_index_count: parents as usize,
            outside_parent_indices_offset: pairs,
            outside_parent_indices_byte_length: shadow.saturating_sub(pairs),
            self_shadow_enabled_offset: shadow,
            span: Span::new(offset, self.base.payload_offset, end),
        }
    }
}
