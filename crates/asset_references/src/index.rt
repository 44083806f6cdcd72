// The number of a model's path in a list of references.
ghost use Rattle.std.specs.Prelude.{◌≡◌, Option, Some, None, cond};
ghost use Rattle.std.specs.Option.{option_or};
ghost use Rattle.asset_references.specs.Normalize.{collapsed};
ghost use Rattle.asset_references.specs.References.{reference, references};
ghost use Rattle.asset_references.specs.Index.{is_model_of, all_ascii, index_in};
ghost use Rattle.asset_references.specs.Answers.{index_read};
ghost use Rattle.asset_references.specs.Run.{AssetCall};

use crate::refusal::AssetRefusal;
use crate::{list, normalize};
use section::limits::EDITION_1;

// The kind of a model's reference; all others are counted and passed over.
const MODEL: u8 = 1;

fn is_ascii(bytes: &[u8]) -> bool
    ensures { result ≡ all_ascii bytes.now }
{
    bytes.iter().all(|byte| byte.is_ascii())
}

// The number found before, or this one where its reference is a model's whose text is the path.
fn first_found(
    found: Option<usize>,
    normalized: &[u8],
    kind: u8,
    text: &[u8],
    number: usize,
) -> Option<usize>
    ensures { result ≡ option_or found (cond (is_model_of (collapsed normalized.now) (reference kind text.now)) (Some number) None) }
{
    if found.is_some() || kind != MODEL || !normalize::is_text(normalized, text) {
        return found;
    }
    Some(number)
}

// One pass over the list, which also says whether it is whole and all of it is ASCII.
#[tactic(auto, using(crate::proofs::EntryByEntry::index))]
fn index_in(path: &[u8], list: &[u8]) -> Result<Option<usize>, AssetRefusal>
    ensures { index_read result ≡ index_in path.now (references list.now) }
{
    let normalized = normalize::normalize_path(path);
    let mut is_all_ascii = is_ascii(path);
    let mut found = None;
    let mut number = 0;
    let mut rest = list;
    'entries: while !rest.is_empty() {
        let Some((kind, text, others)) = list::split_first_reference(rest) else {
            return Err(AssetRefusal::ListCutOff);
        };
        is_all_ascii &= is_ascii(text);
        found = first_found(found, normalized, kind, text, number);
        number += 1;
        rest = others;
    }
    if !is_all_ascii {
        return Err(AssetRefusal::NotAscii);
    }
    Ok(found)
}

pub fn asset_reference_index_for_path(
    path: &[u8],
    list: &[u8],
) -> Result<Option<usize>, AssetRefusal>
    ensures { AssetCall path.now list.now result }
{
    if EDITION_1.bytes < path.len() || EDITION_1.bytes < list.len() {
        return Err(AssetRefusal::TooLong);
    }
    index_in(path, list)
}
