// One check of the strip call: what it is lent, and what it must return and leave there. oracle/README.md has the format.
use vectors::fields::Fields;
use vectors::file::Section;
use vectors::lent::{Lent, Place, Size};
use vectors::tally::{Outcome, Row};

fn read_size(checks: &mut Fields<'_>) -> Size {
    Size {
        room: usize::from(checks.u16()),
        held: usize::from(checks.u16()),
    }
}

// Makes the check that comes next.
pub fn make(section: Section<'_>, checks: &mut Fields<'_>) -> Outcome {
    let Section { bytes, start } = section;
    let returned = usize::from(checks.u16());
    let first = read_size(checks);
    let second = read_size(checks);
    let output = read_size(checks);
    let values = read_size(checks);
    let first = Lent::read::<u16>(first, checks);
    let second = Lent::read::<u16>(second, checks);
    let output = Lent::read::<u8>(output, checks);
    let values = Lent::read::<u64>(values, checks);
    let right = first.right(&mut [u16::BEFORE; 64], |first| {
        second.right(&mut [u16::BEFORE; 64], |second| {
            output.right(&mut [u8::BEFORE; 4096], |output| {
                values.right(&mut [u64::BEFORE; 64], |values| {
                    strip_export::call::limdroven_strip(
                        bytes, start, first, second, output, values,
                    ) as usize
                        == returned
                })
            })
        })
    });
    Outcome {
        row: Row::Returned(returned),
        right,
    }
}
