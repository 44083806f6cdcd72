// The numbers of bone, morph and model records.
ghost use Rattle.std.specs.Prelude.{◌≡◌};
ghost use Rattle.answer_numbers.specs.Put.{put};
ghost use Rattle.answer_numbers.specs.Keyframes.{bone_flags, bone, morph_fields, morph, model_fields, model};

use crate::answers::Numbers;
use crate::put;
use records::bone::PmmDocumentBoneKeyframeSummary;
use records::model::PmmDocumentModelKeyframeSummary;
use records::morph::PmmDocumentMorphKeyframeSummary;

#[tactic(auto, unfolding(crate::specs::Keyframes::bone_flags))]
fn put_bone_flags(values: &mut [u64], at: usize, b: PmmDocumentBoneKeyframeSummary)
    ensures { values.new ≡ put at (bone_flags b) values.old }
{
    let numbers = [u64::from(b.physics_disabled), u64::from(b.selected)];
    put::put(values, at, &numbers);
}

impl Numbers for PmmDocumentBoneKeyframeSummary {
    ghost numbers = { bone };

    fn put(self, values: &mut [u64]) {
        self.base.put_at(values, 0);
        self.pose_bits.put_at(values, 4);
        put_bone_flags(values, 11, self);
        self.span.put_at(values, 13);
    }
}

#[tactic(auto, unfolding(crate::specs::Keyframes::morph_fields))]
fn put_morph_fields(values: &mut [u64], at: usize, m: PmmDocumentMorphKeyframeSummary)
    ensures { values.new ≡ put at (morph_fields m) values.old }
{
    let numbers = [u64::from(m.weight_bits), u64::from(m.selected)];
    put::put(values, at, &numbers);
}

impl Numbers for PmmDocumentMorphKeyframeSummary {
    ghost numbers = { morph };

    fn put(self, values: &mut [u64]) {
        self.base.put_at(values, 0);
        put_morph_fields(values, 4, self);
        self.span.put_at(values, 6);
    }
}

#[tactic(auto, unfolding(crate::specs::Keyframes::model_fields))]
fn put_model_fields(values: &mut [u64], at: usize, m: PmmDocumentModelKeyframeSummary)
    ensures { values.new ≡ put at (model_fields m) values.old }
{
    let numbers = [
        u64::from(m.visible),
        u64::from(m.self_shadow_enabled),
        m.visible_offset as u64,
        m.constraint_state_count as u64,
        m.constraint_states_offset as u64,
        m.constraint_states_byte_length as u64,
        m.outside_parent_index_count as u64,
        m.outside_parent_indices_offset as u64,
        m.outside_parent_indices_byte_length as u64,
        m.self_shadow_enabled_offset as u64,
    ];
    put::put(values, at, &numbers);
}

impl Numbers for PmmDocumentModelKeyframeSummary {
    ghost numbers = { model };

    fn put(self, values: &mut [u64]) {
        self.base.put_at(values, 0);
        put_model_fields(values, 4, self);
        self.span.put_at(values, 14);
    }
}
