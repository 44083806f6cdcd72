// The numbers of states and of a model record's bools and pairs.
ghost use Rattle.std.specs.Prelude.{◌≡◌};
ghost use Rattle.answer_numbers.specs.Put.{put};
ghost use Rattle.answer_numbers.specs.States.{flag, pair, outside_parent, bone_state_flags, bone_state, morph_state};

use crate::answers::Numbers;
use crate::{put, scalars};
use entries::model_lists::PmmDocumentOutsideParentIndexSummary;
use records::states::{
    PmmDocumentBoneStateSummary, PmmDocumentMorphStateSummary, PmmDocumentOutsideParentStateSummary,
};

impl Numbers for PmmDocumentMorphStateSummary {
    ghost numbers = { morph_state };

    #[tactic(auto, unfolding(crate::specs::States::morph_state))]
    fn put(self, values: &mut [u64]) {
        let numbers = [u64::from(self.weight_bits)];
        put::put(values, 0, &numbers);
    }
}

impl Numbers for bool {
    ghost numbers = { flag };

    #[tactic(auto, unfolding(crate::specs::States::flag))]
    fn put(self, values: &mut [u64]) {
        let numbers = [u64::from(self)];
        put::put(values, 0, &numbers);
    }
}

impl Numbers for PmmDocumentOutsideParentIndexSummary {
    ghost numbers = { pair };

    #[tactic(auto, unfolding(crate::specs::States::pair))]
    fn put(self, values: &mut [u64]) {
        let numbers = [
            scalars::pattern(self.parent_model_index),
            scalars::pattern(self.parent_model_bone_index),
        ];
        put::put(values, 0, &numbers);
    }
}

impl Numbers for PmmDocumentOutsideParentStateSummary {
    ghost numbers = { outside_parent };

    #[tactic(auto, unfolding(crate::specs::States::outside_parent))]
    fn put(self, values: &mut [u64]) {
        let numbers = [
            scalars::pattern(self.parent_model_index),
            scalars::pattern(self.parent_model_bone_index),
            scalars::pattern(self.subject_bone_index),
            scalars::pattern(self.target_model_index),
        ];
        put::put(values, 0, &numbers);
    }
}

#[tactic(auto, unfolding(crate::specs::States::bone_state_flags))]
fn put_bone_state_flags(values: &mut [u64], at: usize, b: PmmDocumentBoneStateSummary)
    ensures { values.new ≡ put at (bone_state_flags b) values.old }
{
    let numbers = [
        u64::from(b.dirty),
        u64::from(b.physics_disabled),
        u64::from(b.selected),
    ];
    put::put(values, at, &numbers);
}

impl Numbers for PmmDocumentBoneStateSummary {
    ghost numbers = { bone_state };

    fn put(self, values: &mut [u64]) {
        self.pose_bits.put_at(values, 0);
        put_bone_state_flags(values, 7, self);
    }
}
