// One model section, listed on standard output.
use crate::section_lines;
use std::io;

// An additional record has 21 bytes or more and a section 340 besides, so 65,536 bytes hold at most 3,104.
const RECORDS: usize = 3104;

// A strip is shorter than its section.
const STRIP: usize = 65536;

// A track takes 22 bytes or more, so there are no more keys than records could be. The line of a key has at most 24 bytes: a track has 4
// digits there and a frame 10. The other two have less than 64.
const TEXT: usize = 24 * RECORDS + 64;

// Of at most 65,536 bytes; with more the slices may be too short: 17 or 18 is told, or the lines end early.
pub fn list(rt: &impl Print, section: &[u8], start: usize) -> io::Result<()> {
    let mut first = [0; RECORDS];
    let mut second = [0; RECORDS];
    let mut strip = [0; STRIP];
    let mut text = [0; TEXT];
    let end = section_lines::write_section(
        &mut text,
        section,
        start,
        &mut first,
        &mut second,
        &mut strip,
    );
    rt.write_all(&text[..end])
}
