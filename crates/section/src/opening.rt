// A model section's beginning: model number, name, English name, path, one ignored byte.
ghost use Rattle.std.specs.Prelude.{◌≡◌};
ghost use Rattle.binary.specs.Answers.{read};
ghost use Rattle.section.specs.Model.{opening};

use binary::refusal::Read;
use binary::{numbers, strings};

pub const PATH_WIDTH: usize = 256;

#[derive(Clone, Copy)]
pub struct Opening {
    pub document_model_index: u8,
    pub name_offset: usize,
    pub english_name_offset: usize,
    pub path_offset: usize,
}

#[tactic(auto, unfolding(crate::specs::Model::opening))]
pub fn read_opening(s: &[u8], at: usize) -> Read<Opening>
    ensures { read result ≡ opening s.now at }
{
    let (document_model_index, name_offset) = numbers::read_u8(s, at)?;
    let (_, english_name_offset) = strings::read_variable_string(s, name_offset)?;
    let (_, path_offset) = strings::read_variable_string(s, english_name_offset)?;
    let ignored = numbers::skip(s, path_offset, PATH_WIDTH)?;
    let (_, next) = numbers::read_u8(s, ignored)?;
    let opening = Opening {
        document_model_index,
        name_offset,
        english_name_offset,
        path_offset,
    };
    Ok((opening, next))
}
