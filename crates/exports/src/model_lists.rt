// The bools and pairs of a model record.
ghost use Rattle.section.specs.Limits.{edition1};
ghost use Rattle.answer_numbers.specs.Answers.{WritesAnswer};
ghost use Rattle.entries.specs.ModelLists.{model_keyframe_constraint_state, model_keyframe_outside_parent};
ghost use Rattle.answer_numbers.specs.States.{flag, pair};

use answer_numbers::answers;
use entries::model_lists;

#[unsafe(no_mangle)]
pub extern "C" fn limdroven_model_keyframe_constraint_state(
    section: &[u8],
    start: usize,
    include_index: bool,
    number: usize,
    entry: usize,
    values: &mut [u64],
) -> u32
    ensures { WritesAnswer flag (model_keyframe_constraint_state edition1 include_index number entry section.now start) values.old result values.new }
{
    answers::say(
        model_lists::model_keyframe_constraint_state(section, start, include_index, number, entry),
        values,
    )
}

#[unsafe(no_mangle)]
pub extern "C" fn limdroven_model_keyframe_outside_parent(
    section: &[u8],
    start: usize,
    include_index: bool,
    number: usize,
    entry: usize,
    values: &mut [u64],
) -> u32
    ensures { WritesAnswer pair (model_keyframe_outside_parent edition1 include_index number entry section.now start) values.old result values.new }
{
    answers::say(
        model_lists::model_keyframe_outside_parent(section, start, include_index, number, entry),
        values,
    )
}
