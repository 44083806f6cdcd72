// The summary of a model section.
ghost use Rattle.section.specs.Limits.{edition1};
ghost use Rattle.answer_numbers.specs.Answers.{WritesAnswer};
ghost use Rattle.section.specs.Summary.{model_summary};
ghost use Rattle.answer_numbers.specs.Summary.{model_summary as summary_numbers};

use answer_numbers::answers;
use section::summary;

#[unsafe(no_mangle)]
pub extern "C" fn limdroven_model_summary(section: &[u8], start: usize, values: &mut [u64]) -> u32
    ensures { WritesAnswer summary_numbers (model_summary edition1 section.now start) values.old result values.new }
{
    answers::say(summary::read_document_model_summary(section, start), values)
}
