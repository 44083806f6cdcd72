// The names and the path of a model section, as the parts of the section that hold them.
ghost use Rattle.std.specs.Prelude.{◌≡◌};
ghost use Rattle.binary.specs.Answers.{read, answer_read};
ghost use Rattle.section.specs.Limits.{edition1};
ghost use Rattle.entries.specs.Texts.{name_at, text_at, text_of};
ghost use Rattle.entries.specs.Parts.{part_or};

use crate::parts;
use binary::refusal::{Read, Refusal};
use binary::strings;
use layout::Part;
use section::model;
use section::model::Model;
use section::names::Names;
use section::opening::PATH_WIDTH;

// Which text: the model's name, its English name or its path, or a bone's or morph's name by its number.
#[derive(Clone, Copy)]
pub enum Text {
    Name,
    EnglishName,
    Path,
    Bone(usize),
    Morph(usize),
}

#[tactic(auto, unfolding(crate::specs::Texts::name_at))]
fn read_name(s: &[u8], names: Names, number: usize) -> Read<Part>
    ensures { read result ≡ name_at names number s.now }
{
    let count = names.count as usize;
    if count <= number {
        return Err(Refusal::Absent);
    }
    let at = strings::skip_strings(s, names.offset, number as u32)?;
    strings::read_variable_string(s, at)
}

#[tactic(auto, unfolding(crate::specs::Texts::text_at))]
fn read_text(s: &[u8], text: Text, m: Model) -> Read<Part>
    ensures { read result ≡ text_at text m s.now }
{
    let opening = m.front.opening;
    let counts = m.front.counts;
    match text {
        Text::Name => strings::read_variable_string(s, opening.name_offset),
        Text::EnglishName => strings::read_variable_string(s, opening.english_name_offset),
        Text::Path => strings::read_fixed_string(s, opening.path_offset, PATH_WIDTH),
        Text::Bone(number) => read_name(s, counts.bones, number),
        Text::Morph(number) => read_name(s, counts.morphs, number),
    }
}

// Where the text stands, or why there is none.
#[tactic(auto, unfolding(crate::specs::Texts::text_of))]
pub fn text_span(section: &[u8], start: usize, text: Text) -> Result<Part, Refusal>
    ensures { answer_read result ≡ text_of edition1 text section.now start }
{
    let (m, _) = model::read_model(section, start)?;
    let (part, _) = read_text(section, text, m)?;
    Ok(part)
}

// The text itself; empty where `text_span` with the same inputs refuses.
pub fn text_part(section: &[u8], start: usize, text: Text) -> &[u8]
    ensures { result.now ≡ part_or (text_of edition1 text section.now start) section.now }
{
    match text_span(section, start, text) {
        Ok(text) => parts::part(section, text.offset, text.byte_length),
        Err(_) => &[],
    }
}
