// Where names and the path stand.
ghost use Rattle.section.specs.Limits.{edition1};
ghost use Rattle.entries.specs.Texts.{text_of};
ghost use Rattle.entries.specs.declared.texts.Text.{Text};
ghost use Rattle.answer_numbers.specs.Answers.{WritesAnswer};
ghost use Rattle.answer_numbers.specs.Spans.{span};

use answer_numbers::answers;
use entries::texts;
use entries::texts::Text;

fn text_span(section: &[u8], start: usize, text: Text, values: &mut [u64]) -> u32
    ensures { WritesAnswer span (text_of edition1 text section.now start) values.old result values.new }
{
    answers::say(texts::text_span(section, start, text), values)
}

#[unsafe(no_mangle)]
pub extern "C" fn limdroven_name_span(section: &[u8], start: usize, values: &mut [u64]) -> u32
    ensures { WritesAnswer span (text_of edition1 Text.Name section.now start) values.old result values.new }
{
    text_span(section, start, Text::Name, values)
}

#[unsafe(no_mangle)]
pub extern "C" fn limdroven_english_name_span(
    section: &[u8],
    start: usize,
    values: &mut [u64],
) -> u32
    ensures { WritesAnswer span (text_of edition1 Text.EnglishName section.now start) values.old result values.new }
{
    text_span(section, start, Text::EnglishName, values)
}

#[unsafe(no_mangle)]
pub extern "C" fn limdroven_path_span(section: &[u8], start: usize, values: &mut [u64]) -> u32
    ensures { WritesAnswer span (text_of edition1 Text.Path section.now start) values.old result values.new }
{
    text_span(section, start, Text::Path, values)
}

#[unsafe(no_mangle)]
pub extern "C" fn limdroven_bone_name_span(
    section: &[u8],
    start: usize,
    number: usize,
    values: &mut [u64],
) -> u32
    ensures { WritesAnswer span (text_of edition1 (Text.Bone number) section.now start) values.old result values.new }
{
    text_span(section, start, Text::Bone(number), values)
}

#[unsafe(no_mangle)]
pub extern "C" fn limdroven_morph_name_span(
    section: &[u8],
    start: usize,
    number: usize,
    values: &mut [u64],
) -> u32
    ensures { WritesAnswer span (text_of edition1 (Text.Morph number) section.now start) values.old result values.new }
{
    text_span(section, start, Text::Morph(number), values)
}
