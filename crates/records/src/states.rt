// The state of a bone, a morph, a constraint or an outside parent.
ghost use Rattle.std.specs.Prelude.{◌≡◌};
ghost use Rattle.binary.specs.Answers.{read};
ghost use Rattle.records.specs.States.{bone_state, bone_state_of, morph_state_of, parent_state_of};

use crate::pose;
use crate::pose::{Pose, PoseBits};
use binary::numbers;
use binary::refusal::Read;
use std::num;

#[derive(Clone, Copy)]
pub struct BoneStateBits {
    pub pose: PoseBits,
    pub dirty: bool,
    pub physics_disabled: bool,
    pub selected: bool,
}

// Rattle's f32 has one NaN; the bits are the file's.
#[derive(Clone, Copy)]
pub struct PmmDocumentBoneStateSummary {
    pub pose: Pose,
    pub pose_bits: PoseBits,
    pub dirty: bool,
    pub physics_disabled: bool,
    pub selected: bool,
}

// As in a bone's state.
#[derive(Clone, Copy)]
pub struct PmmDocumentMorphStateSummary {
    pub weight: f32,
    pub weight_bits: u32,
}

#[derive(Clone, Copy)]
pub struct PmmDocumentOutsideParentStateSummary {
    pub parent_model_index: i32,
    pub parent_model_bone_index: i32,
    pub subject_bone_index: i32,
    pub target_model_index: i32,
}

#[tactic(auto, unfolding(crate::specs::States::bone_state))]
pub fn read_bone_state(s: &[u8], at: usize) -> Read<BoneStateBits>
    ensures { read result ≡ bone_state s.now at }
{
    let (pose, at) = pose::read_pose(s, at)?;
    let (dirty, at) = numbers::read_bool(s, at)?;
    let (physics_disabled, at) = numbers::read_bool(s, at)?;
    let (selected, next) = numbers::read_bool(s, at)?;
    let bits = BoneStateBits {
        pose,
        dirty,
        physics_disabled,
        selected,
    };
    Ok((bits, next))
}

impl From<BoneStateBits> for PmmDocumentBoneStateSummary {
    ghost from_gives = { λ bits state. state ≡ bone_state_of bits };

    #[tactic(auto, unfolding(crate::specs::States::bone_state_of))]
    fn from(bits: BoneStateBits) -> PmmDocumentBoneStateSummary {
        PmmDocumentBoneStateSummary {
            pose: Pose::from(bits.pose),
            pose_bits: bits.pose,
            dirty: bits.dirty,
            physics_disabled: bits.physics_disabled,
            selected: bits.selected,
        }
    }
}

impl From<u32> for PmmDocumentMorphStateSummary {
    ghost from_gives = { λ bits state. state ≡ morph_state_of bits };

    #[tactic(auto, unfolding(crate::specs::States::morph_state_of))]
    fn from(bits: u32) -> PmmDocumentMorphStateSummary {
        PmmDocumentMorphStateSummary {
            weight: num::f32_from_bits_with_nan(bits),
            weight_bits: bits,
        }
    }
}

impl From<[u32; 4]> for PmmDocumentOutsideParentStateSummary {
    ghost from_gives = { λ bits state. state ≡ parent_state_of bits };

    #[tactic(auto, unfolding(crate::specs::States::parent_state_of))]
    fn from(bits: [u32; 4]) -> PmmDocumentOutsideParentStateSummary {
        let [model, bone, subject, target] = bits.map(u32::cast_signed);
        PmmDocumentOutsideParentStateSummary {
            parent_model_index: model,
            parent_model_bone_index: bone,
            subject_bone_index: subject,
            target_model_index: target,
        }
    }
}
