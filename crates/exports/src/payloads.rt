// Payloads: the length is returned, the bytes are written.
ghost use Rattle.section.specs.Limits.{edition1};
ghost use Rattle.answer_numbers.specs.Answers.{WritesPart};
ghost use Rattle.entries.specs.Keyframes.{bone_keyframe, morph_keyframe, model_keyframe};
ghost use Rattle.entries.specs.Parts.{payload_or};
ghost use Rattle.camera_light.specs.Camera.{camera_keyframe};
ghost use Rattle.camera_light.specs.Light.{light_keyframe};

use answer_numbers::put;
use camera_light::camera::CameraKeyframeSummary;
use camera_light::light::LightKeyframeSummary;
use entries::keyframe;
use records::bone::PmmDocumentBoneKeyframeSummary;
use records::model::PmmDocumentModelKeyframeSummary;
use records::morph::PmmDocumentMorphKeyframeSummary;

#[unsafe(no_mangle)]
pub extern "C" fn limdroven_bone_payload(
    section: &[u8],
    start: usize,
    include_index: bool,
    number: usize,
    output: &mut [u8],
) -> usize
    ensures { WritesPart (payload_or (λ b. b.span) (bone_keyframe edition1 include_index number section.now start) section.now) output.old result output.new }
{
    put::put_part(
        output,
        keyframe::payload::<PmmDocumentBoneKeyframeSummary>(section, start, include_index, number),
    )
}

#[unsafe(no_mangle)]
pub extern "C" fn limdroven_morph_payload(
    section: &[u8],
    start: usize,
    include_index: bool,
    number: usize,
    output: &mut [u8],
) -> usize
    ensures { WritesPart (payload_or (λ b. b.span) (morph_keyframe edition1 include_index number section.now start) section.now) output.old result output.new }
{
    put::put_part(
        output,
        keyframe::payload::<PmmDocumentMorphKeyframeSummary>(section, start, include_index, number),
    )
}

#[unsafe(no_mangle)]
pub extern "C" fn limdroven_model_payload(
    section: &[u8],
    start: usize,
    include_index: bool,
    number: usize,
    output: &mut [u8],
) -> usize
    ensures { WritesPart (payload_or (λ b. b.span) (model_keyframe edition1 include_index number section.now start) section.now) output.old result output.new }
{
    put::put_part(
        output,
        keyframe::payload::<PmmDocumentModelKeyframeSummary>(section, start, include_index, number),
    )
}

#[unsafe(no_mangle)]
pub extern "C" fn limdroven_camera_payload(
    section: &[u8],
    start: usize,
    include_index: bool,
    number: usize,
    output: &mut [u8],
) -> usize
    ensures { WritesPart (payload_or (λ b. b.span) (camera_keyframe edition1 include_index number section.now start) section.now) output.old result output.new }
{
    put::put_part(
        output,
        keyframe::payload::<CameraKeyframeSummary>(section, start, include_index, number),
    )
}

#[unsafe(no_mangle)]
pub extern "C" fn limdroven_light_payload(
    section: &[u8],
    start: usize,
    include_index: bool,
    number: usize,
    output: &mut [u8],
) -> usize
    ensures { WritesPart (payload_or (λ b. b.span) (light_keyframe edition1 include_index number section.now start) section.now) output.old result output.new }
{
    put::put_part(
        output,
        keyframe::payload::<LightKeyframeSummary>(section, start, include_index, number),
    )
}
