// Reads every truncation of one model section and compares each place of refusal 1 with the widths of the section's items, which
// come from oracle/truncations.py and from no reader.

use binary::refusal::Refusal;
use section::summary;
use std::io;
use std::rt::Files;

// Where the section starts in its file.
const START: usize = 3;

// The offset of the first item that is not whole in `bytes` bytes, or of the end.
fn first_lacking(widths: &[u8], bytes: usize) -> usize {
    let (widths, _) = widths.as_chunks();
    let mut at = START;
    for width in widths {
        let next = at.saturating_add(usize::from(u16::from_le_bytes(*width)));
        if bytes < next {
            break;
        }
        at = next;
    }
    at
}

// Whether the truncation is refused at the place that the widths give.
fn right_place(part: &[u8], widths: &[u8]) -> bool {
    let lacking = first_lacking(widths, part.len());
    summary::read_document_model_summary(part, START).is_err_and(|why| why
        == Refusal::TooShort(lacking))
}

// Whether the whole file is read to its end, which the widths give too.
fn whole(file: &[u8], widths: &[u8]) -> bool {
    first_lacking(widths, file.len()) == file.len()
        && summary::read_document_model_summary(file, START).is_ok_and(|m| m.offset_end
            == file.len())
}

pub fn run<R: Files + Print + Eprint>(rt: &R) -> io::Result<()> {
    let mut file_space = [0; 4096];
    let mut widths_space = [0; 4096];
    let file_length = files::load(rt, "section", &mut file_space)?;
    let widths_length = files::load(rt, "widths", &mut widths_space)?;
    let file = &file_space[..file_length];
    let widths = &widths_space[..widths_length];
    let wrong = (0..file.len())
        .filter(|n| !right_place(&file[..*n], widths))
        .count();
    println!(rt; "truncations {}", file.len())?;
    println!(rt; "wrong {wrong}")?;
    if whole(file, widths) {
        println!(rt; "whole: read to its end")?;
    }
    Ok(())
}
