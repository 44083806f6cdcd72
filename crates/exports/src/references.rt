// Which reference of a list is a model's path.
ghost use Rattle.section.specs.Limits.{edition1};
ghost use Rattle.asset_references.specs.Index.{asset_reference_index_for_path};
ghost use Rattle.answer_numbers.specs.{Answers.{WritesAnswer}, Scalars.{reference_index}};

use answer_numbers::answers;
use asset_references::index;

#[unsafe(no_mangle)]
pub extern "C" fn limdroven_asset_reference_index_for_path(
    path: &[u8],
    list: &[u8],
    values: &mut [u64],
) -> u32
    ensures { WritesAnswer reference_index (asset_reference_index_for_path edition1 path.now list.now) values.old result values.new }
{
    answers::say(index::asset_reference_index_for_path(path, list), values)
}
