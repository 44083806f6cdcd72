// A pose is three translation floats and four orientation floats (document 01, "Forms by place in the code").
ghost use Rattle.std.specs.Prelude.{◌≡◌, ◌+◌, ◌≤◌, length};
ghost use Rattle.layout.specs.Walk.{fine};
ghost use Rattle.binary.specs.Answers.{read};
ghost use Rattle.records.specs.Pose.{pose_bits, pose_of};

use crate::items;
use binary::refusal::Read;
use binary::{blocks, numbers};
use std::num;

#[derive(Clone, Copy)]
pub struct PoseBits {
    pub translation: [u32; 3],
    pub orientation: [u32; 4],
}

#[derive(Clone, Copy)]
pub struct Pose {
    pub translation_x: f32,
    pub translation_y: f32,
    pub translation_z: f32,
    pub orientation_x: f32,
    pub orientation_y: f32,
    pub orientation_z: f32,
    pub orientation_w: f32,
}

// The bits of a pose that stands whole.
#[tactic(auto, using(crate::proofs::PoseWhole::poses))]
pub fn pose_at(s: &[u8], at: usize) -> PoseBits
    requires { at + 28 ≤ length s.now }
    ensures { fine result (at + 28) ≡ pose_bits s.now at }
{
    PoseBits {
        translation: [
            numbers::u32_at(s, at),
            numbers::u32_at(s, at + 4),
            numbers::u32_at(s, at + 8),
        ],
        orientation: [
            numbers::u32_at(s, at + 12),
            numbers::u32_at(s, at + 16),
            numbers::u32_at(s, at + 20),
            numbers::u32_at(s, at + 24),
        ],
    }
}

#[tactic(auto, using(crate::proofs::PoseWhole::poses))]
pub fn read_pose(s: &[u8], at: usize) -> Read<PoseBits>
    ensures { read result ≡ pose_bits s.now at }
{
    let next = blocks::skip_records(s, at, 1, &items::pose_items())?;
    Ok((pose_at(s, at), next))
}

impl From<PoseBits> for Pose {
    ghost from_gives = { λ bits pose. pose ≡ pose_of bits };

    #[tactic(auto, unfolding(crate::specs::Pose::pose_of))]
    fn from(bits: PoseBits) -> Pose {
        let [x, y, z] = bits.translation;
        let [i, j, k, w] = bits.orientation;
        Pose {
            translation_x: num::f32_from_bits_with_nan(x),
            translation_y: num::f32_from_bits_with_nan(y),
            translation_z: num::f32_from_bits_with_nan(z),
            orientation_x: num::f32_from_bits_with_nan(i),
            orientation_y: num::f32_from_bits_with_nan(j),
            orientation_z: num::f32_from_bits_with_nan(k),
            orientation_w: num::f32_from_bits_with_nan(w),
        }
    }
}
