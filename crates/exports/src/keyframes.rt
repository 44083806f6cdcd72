// Bone, morph and model records.
ghost use Rattle.section.specs.Limits.{edition1};
ghost use Rattle.answer_numbers.specs.Answers.{WritesAnswer};
ghost use Rattle.entries.specs.Keyframes.{bone_keyframe, morph_keyframe, model_keyframe};
ghost use Rattle.answer_numbers.specs.Keyframes.{bone, morph, model};

use answer_numbers::answers;
use entries::keyframe::Keyframe;
use records::bone::PmmDocumentBoneKeyframeSummary;
use records::model::PmmDocumentModelKeyframeSummary;
use records::morph::PmmDocumentMorphKeyframeSummary;

#[unsafe(no_mangle)]
pub extern "C" fn limdroven_bone_keyframe(
    section: &[u8],
    start: usize,
    include_index: bool,
    number: usize,
    values: &mut [u64],
) -> u32
    ensures { WritesAnswer bone (bone_keyframe edition1 include_index number section.now start) values.old result values.new }
{
    answers::say(
        PmmDocumentBoneKeyframeSummary::read(section, start, include_index, number),
        values,
    )
}

#[unsafe(no_mangle)]
pub extern "C" fn limdroven_morph_keyframe(
    section: &[u8],
    start: usize,
    include_index: bool,
    number: usize,
    values: &mut [u64],
) -> u32
    ensures { WritesAnswer morph (morph_keyframe edition1 include_index number section.now start) values.old result values.new }
{
    answers::say(
        PmmDocumentMorphKeyframeSummary::read(section, start, include_index, number),
        values,
    )
}

#[unsafe(no_mangle)]
pub extern "C" fn limdroven_model_keyframe(
    section: &[u8],
    start: usize,
    include_index: bool,
    number: usize,
    values: &mut [u64],
) -> u32
    ensures { WritesAnswer model (model_keyframe edition1 include_index number section.now start) values.old result values.new }
{
    answers::say(
        PmmDocumentModelKeyframeSummary::read(section, start, include_index, number),
        values,
    )
}
