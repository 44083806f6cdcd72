// The states of bones, morphs, constraints and outside parents.
ghost use Rattle.section.specs.Limits.{edition1};
ghost use Rattle.answer_numbers.specs.Answers.{WritesAnswer};
ghost use Rattle.entries.specs.States.{bone_state, morph_state, constraint_state, outside_parent_state};
ghost use Rattle.answer_numbers.specs.States.{flag, bone_state as bone_state_numbers, morph_state as morph_state_numbers, outside_parent};

use answer_numbers::answers;
use entries::states;

#[unsafe(no_mangle)]
pub extern "C" fn limdroven_bone_state(
    section: &[u8],
    start: usize,
    number: usize,
    values: &mut [u64],
) -> u32
    ensures { WritesAnswer bone_state_numbers (bone_state edition1 number section.now start) values.old result values.new }
{
    answers::say(states::bone_state(section, start, number), values)
}

#[unsafe(no_mangle)]
pub extern "C" fn limdroven_morph_state(
    section: &[u8],
    start: usize,
    number: usize,
    values: &mut [u64],
) -> u32
    ensures { WritesAnswer morph_state_numbers (morph_state edition1 number section.now start) values.old result values.new }
{
    answers::say(states::morph_state(section, start, number), values)
}

#[unsafe(no_mangle)]
pub extern "C" fn limdroven_constraint_state(
    section: &[u8],
    start: usize,
    number: usize,
    values: &mut [u64],
) -> u32
    ensures { WritesAnswer flag (constraint_state edition1 number section.now start) values.old result values.new }
{
    answers::say(states::constraint_state(section, start, number), values)
}

#[unsafe(no_mangle)]
pub extern "C" fn limdroven_outside_parent_state(
    section: &[u8],
    start: usize,
    number: usize,
    values: &mut [u64],
) -> u32
    ensures { WritesAnswer outside_parent (outside_parent_state edition1 number section.now start) values.old result values.new }
{
    answers::say(states::outside_parent_state(section, start, number), values)
}
