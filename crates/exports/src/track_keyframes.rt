// Camera and light records.
ghost use Rattle.section.specs.Limits.{edition1};
ghost use Rattle.answer_numbers.specs.Answers.{WritesAnswer};
ghost use Rattle.camera_light.specs.Camera.{camera_keyframe};
ghost use Rattle.camera_light.specs.Light.{light_keyframe};
ghost use Rattle.answer_numbers.specs.Tracks.{camera, light};

use answer_numbers::answers;
use camera_light::camera::CameraKeyframeSummary;
use camera_light::light::LightKeyframeSummary;
use entries::keyframe::Keyframe;

#[unsafe(no_mangle)]
pub extern "C" fn limdroven_camera_keyframe(
    section: &[u8],
    start: usize,
    include_index: bool,
    number: usize,
    values: &mut [u64],
) -> u32
    ensures { WritesAnswer camera (camera_keyframe edition1 include_index number section.now start) values.old result values.new }
{
    answers::say(
        CameraKeyframeSummary::read(section, start, include_index, number),
        values,
    )
}

#[unsafe(no_mangle)]
pub extern "C" fn limdroven_light_keyframe(
    section: &[u8],
    start: usize,
    include_index: bool,
    number: usize,
    values: &mut [u64],
) -> u32
    ensures { WritesAnswer light (light_keyframe edition1 include_index number section.now start) values.old result values.new }
{
    answers::say(
        LightKeyframeSummary::read(section, start, include_index, number),
        values,
    )
}
