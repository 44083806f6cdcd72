// What is asked of a key's body (document 01, "Build order"). A pose is a struct of seven f32 fields, passed by value from the
// record reader to the finite and length checks (document 01, "Forms by place in the code").
ghost use Rattle.std.specs.Prelude.{◌≡◌, ◌&&◌};
ghost use Rattle.clip.specs.Keys.{
  finite,
  squared_length,
  translation_fails,
  orientation_fails,
  pose_asked,
  posed,
};
ghost use Rattle.clip.specs.Section.{bone_body};
ghost use Rattle.keys.specs.Answers.{asked_read};

use crate::body::BoneBody;
use records::pose::Pose;

// The squared length up to which an orientation is refused: 2^-23.
const LIMIT: f32 = 1.1920929e-7;

// What is against a pose, 12 or 13; specs/Answers.antt gives the numbers.
#[derive(Clone, Copy, Debug, PartialEq, Eq)]
pub enum PoseFault {
    Translation,
    Orientation,
}

#[tactic(auto, using(crate::proofs::Asking::finite_is))]
pub fn finite(x: f32) -> bool
    ensures { result ≡ finite x }
{
    x.is_finite()
}

fn finite3(x: f32, y: f32, z: f32) -> bool
    ensures { result ≡ finite x && finite y && finite z }
{
    finite(x) & finite(y) & finite(z)
}

#[tactic(auto, unfolding(clip::specs::Keys::squared_length))]
fn squared_length(x: f32, y: f32, z: f32, w: f32) -> f32
    ensures { result ≡ squared_length x y z w }
{
    ((x * x + y * y) + z * z) + w * w
}

#[tactic(auto, unfolding(clip::specs::Keys::translation_fails))]
fn translation_fails(pose: Pose) -> bool
    ensures { result ≡ translation_fails pose }
{
    !finite3(pose.translation_x, pose.translation_y, pose.translation_z)
}

fn orientation_fails(pose: Pose) -> bool
    ensures { result ≡ orientation_fails pose }
{
    let x = pose.orientation_x;
    let y = pose.orientation_y;
    let z = pose.orientation_z;
    let w = pose.orientation_w;
    let all = finite3(x, y, z) & finite(w);
    !all | (squared_length(x, y, z, w) <= LIMIT)
}

#[tactic(auto, using(crate::proofs::Asking::poses))]
pub fn pose_asked(pose: Pose) -> Result<(), PoseFault>
    ensures { asked_read result ≡ pose_asked pose }
{
    if translation_fails(pose) {
        return Err(PoseFault::Translation);
    }
    if orientation_fails(pose) {
        return Err(PoseFault::Orientation);
    }
    Ok(())
}

impl<'a> BoneBody<'a> {
    pub fn asked(&self) -> Result<(), PoseFault>
        ensures { asked_read result ≡ pose_asked (posed (bone_body self.now.section.now self.now.at)) }
    {
        pose_asked(self.pose())
    }
}
