// The lines of one model section: its counts, every key of its strip and how many records are loose, or the number of the refusal.
ghost use Rattle.std.specs.Prelude.{◌≡◌};
ghost use Rattle.layout.specs.Walk.{answered};
ghost use Rattle.section.specs.Limits.{edition1};
ghost use Rattle.strip.specs.Strip.{count_width, Contents};
ghost use Rattle.strip.specs.Runs.{outcome};
ghost use Rattle.strip_reader.specs.Read.{read_strip};
ghost use Rattle.listing_lines.specs.Lines.{all_keys};
ghost use Rattle.listing_lines.specs.Written.{Written};
ghost use Rattle.listing_lines.specs.Listing.{listing, strip_listed, outcome_listed, section_listing};

use crate::{lines, strip_lines};
use section::summary;
use section::summary::PmmDocumentModelSummary;
use strip_call::call;
use strip_reader::all_keys;

// Of a strip that is read and has so many keys.
fn write_listing(
    output: &mut [u8],
    m: &PmmDocumentModelSummary,
    strip: &[u8],
    count: usize,
    loose: usize,
) -> usize
    requires { (c : Contents) → read_strip edition1 count_width strip.now ≡ answered c → count ≡ all_keys c }
    ensures { (c : Contents) → read_strip edition1 count_width strip.now ≡ answered c → Written 0 (listing m.now loose c) output.old result output.new }
{
    let behind = lines::write_model(output, 0, m.bone_count, m.morph_count, m.offset_end);
    let behind_keys = strip_lines::write_keys(output, behind, strip, count);
    lines::write_count(output, behind_keys, count, loose)
}

fn write_strip(output: &mut [u8], m: &PmmDocumentModelSummary, strip: &[u8], loose: usize) -> usize
    ensures { Written 0 (strip_listed m.now loose (read_strip edition1 count_width strip.now)) output.old result output.new }
{
    match all_keys::keys(strip, 0, &mut []) {
        Ok(count) => write_listing(output, m, strip, count, loose),
        Err(why) => lines::write_refused(output, usize::from(why.number())),
    }
}

// What the strip call leaves of a section that has been read.
fn write_called(
    output: &mut [u8],
    m: &PmmDocumentModelSummary,
    section: &[u8],
    start: usize,
    first: &mut [u16],
    second: &mut [u16],
    strip: &mut [u8],
) -> usize
    ensures { Written 0 (outcome_listed m.now (outcome edition1 count_width (record { section = section.now; start = start; first = first.old; second = second.old; output = strip.old }))) output.old result output.new }
{
    match call::strip(section, start, first, second, strip) {
        Ok(built) => write_strip(output, m, &strip[..built.strip_length], built.loose),
        Err(why) => lines::write_refused(output, usize::from(why.number())),
    }
}

// Every section, start and slices are taken. The work slices and the one for the strip are those of the strip call; the lines are written
// as far as the output reaches, and the answer is where they end there.
pub fn write_section(
    output: &mut [u8],
    section: &[u8],
    start: usize,
    first: &mut [u16],
    second: &mut [u16],
    strip: &mut [u8],
) -> usize
    ensures { Written 0 (section_listing (record { section = section.now; start = start; first = first.old; second = second.old; output = strip.old })) output.old result output.new }
{
    match summary::read_document_model_summary(section, start) {
        Ok(m) => write_called(output, &m, section, start, first, second, strip),
        Err(why) => lines::write_refused(output, usize::from(why.number())),
    }
}
