// Names and the path: the length is returned, the bytes are written.
ghost use Rattle.section.specs.Limits.{edition1};
ghost use Rattle.answer_numbers.specs.Answers.{WritesPart};
ghost use Rattle.entries.specs.Parts.{part_or};
ghost use Rattle.entries.specs.Texts.{text_of};
ghost use Rattle.entries.specs.declared.texts.Text.{Text};

use answer_numbers::put;
use entries::texts;
use entries::texts::Text;

#[unsafe(no_mangle)]
pub extern "C" fn limdroven_name(section: &[u8], start: usize, output: &mut [u8]) -> usize
    ensures { WritesPart (part_or (text_of edition1 Text.Name section.now start) section.now) output.old result output.new }
{
    put::put_part(output, texts::text_part(section, start, Text::Name))
}

#[unsafe(no_mangle)]
pub extern "C" fn limdroven_english_name(section: &[u8], start: usize, output: &mut [u8]) -> usize
    ensures { WritesPart (part_or (text_of edition1 Text.EnglishName section.now start) section.now) output.old result output.new }
{
    put::put_part(output, texts::text_part(section, start, Text::EnglishName))
}

#[unsafe(no_mangle)]
pub extern "C" fn limdroven_path(section: &[u8], start: usize, output: &mut [u8]) -> usize
    ensures { WritesPart (part_or (text_of edition1 Text.Path section.now start) section.now) output.old result output.new }
{
    put::put_part(output, texts::text_part(section, start, Text::Path))
}

#[unsafe(no_mangle)]
pub extern "C" fn limdroven_bone_name(
    section: &[u8],
    start: usize,
    number: usize,
    output: &mut [u8],
) -> usize
    ensures { WritesPart (part_or (text_of edition1 (Text.Bone number) section.now start) section.now) output.old result output.new }
{
    put::put_part(output, texts::text_part(section, start, Text::Bone(number)))
}

#[unsafe(no_mangle)]
pub extern "C" fn limdroven_morph_name(
    section: &[u8],
    start: usize,
    number: usize,
    output: &mut [u8],
) -> usize
    ensures { WritesPart (part_or (text_of edition1 (Text.Morph number) section.now start) section.now) output.old result output.new }
{
    put::put_part(
        output,
        texts::text_part(section, start, Text::Morph(number)),
    )
}
