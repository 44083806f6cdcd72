// Interpolations: the length is returned, the bytes are written.
ghost use Rattle.std.specs.Prelude.{take};
ghost use Rattle.section.specs.Limits.{edition1};
ghost use Rattle.answer_numbers.specs.Answers.{WritesPart};
ghost use Rattle.entries.specs.Keyframes.{bone_keyframe};
ghost use Rattle.entries.specs.Parts.{payload_or};
ghost use Rattle.camera_light.specs.Camera.{camera_keyframe, curves_part};

use answer_numbers::put;
use camera_light::camera;
use entries::interpolation;

#[unsafe(no_mangle)]
pub extern "C" fn limdroven_camera_interpolation(
    section: &[u8],
    start: usize,
    include_index: bool,
    number: usize,
    output: &mut [u8],
) -> usize
    ensures { WritesPart (curves_part (camera_keyframe edition1 include_index number section.now start) section.now) output.old result output.new }
{
    put::put_part(
        output,
        camera::camera_interpolation(section, start, include_index, number),
    )
}

// The curves of x, y, z and rotation, one behind the other; nothing where the record is refused.
#[unsafe(no_mangle)]
pub extern "C" fn limdroven_bone_interpolation(
    section: &[u8],
    start: usize,
    include_index: bool,
    number: usize,
    output: &mut [u8],
) -> usize
    ensures { WritesPart (take 16 (payload_or (λ b. b.span) (bone_keyframe edition1 include_index number section.now start) section.now)) output.old result output.new }
{
    put::put_part(
        output,
        interpolation::bone_curves(section, start, include_index, number),
    )
}
