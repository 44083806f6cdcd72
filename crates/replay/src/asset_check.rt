// One check of a look-up: the section is the path. oracle/README.md has the format.
use asset_references::index;
use vectors::fields::Fields;
use vectors::file::Section;
use vectors::tally::{Outcome, Row};

// Makes the check that comes next.
pub fn make(section: Section<'_>, checks: &mut Fields<'_>) -> Outcome {
    let returned = usize::from(checks.u16());
    let number = checks.u64();
    let length = usize::from(checks.u16());
    let list = checks.part(length);
    let answer = index::asset_reference_index_for_path(section.bytes, list.left);
    let right = match answer {
        Ok(Some(found)) => returned == 0 && number == found as u64,
        // No list has so many entries.
        Ok(None) => returned == 0 && number == u64::MAX,
        Err(refusal) => returned == usize::from(refusal.number()),
    };
    Outcome {
        row: Row::Returned(returned),
        right,
    }
}
