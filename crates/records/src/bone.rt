// A bone record and its summary.
ghost use Rattle.std.specs.Prelude.{◌≡◌};
ghost use Rattle.binary.specs.Answers.{read};
ghost use Rattle.records.specs.Keyframes.{bone_bits, bone_of};

use crate::base::{BaseBits, PmmDocumentBaseKeyframeSummary, Span};
use crate::pose::{Pose, PoseBits};
use crate::{base, pose};
use binary::numbers;
use binary::refusal::Read;

#[derive(Clone, Copy)]
pub struct BoneBits {
    pub base: BaseBits,
    pub pose: PoseBits,
    pub physics_disabled: bool,
    pub selected: bool,
}

// The interpolation is answered beside the summary, as an array. Rattle's f32 has one NaN; the bits are the file's.
#[derive(Clone, Copy)]
pub struct PmmDocumentBoneKeyframeSummary {
    pub base: PmmDocumentBaseKeyframeSummary,
    pub pose: Pose,
    pub pose_bits: PoseBits,
    pub physics_disabled: bool,
    pub selected: bool,
    pub span: Span,
}

#[tactic(auto, unfolding(crate::specs::Keyframes::bone_bits))]
pub fn read_bone(s: &[u8], at: usize, include_index: bool) -> Read<BoneBits>
    ensures { read result ≡ bone_bits include_index s.now at }
{
    let (base, at) = base::read_base(s, at, include_index)?;
    let at = numbers::skip(s, at, 16)?;
    let (pose, at) = pose::read_pose(s, at)?;
    let (physics_disabled, at) = numbers::read_bool(s, at)?;
    let (selected, next) = numbers::read_bool(s, at)?;
    let bits = BoneBits {
        base,
        pose,
        physics_disabled,
        selected,
    };
    Ok((bits, next))
}

impl BoneBits {
    // The summary of a record that stands from `offset` to `end`.
    #[tactic(auto, unfolding(crate::specs::Keyframes::bone_of))]
    pub fn summary(self, offset: usize, end: usize) -> PmmDocumentBoneKeyframeSummary
        ensures { result ≡ bone_of self offset end }
    {
        PmmDocumentBoneKeyframeSummary {
            base: self.base.summary(),
            pose: Pose::from(self.pose),
            pose_bits: self.pose,
            physics_disabled: self.physics_disabled,
            selected: self.selected,
            span: Span::new(offset, self.base.payload_offset, end),
        }
    }
}
