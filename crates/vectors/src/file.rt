// The sections of a file, one after the other, each with its checks.
use crate::fields::Fields;
use crate::tally::{MOST, Outcome, Tally};
use std::io;
use std::io::Read;
use std::rt::Files;

#[derive(Clone, Copy)]
pub struct Section<'a> {
    pub bytes: &'a [u8],
    pub start: usize,
}

// What stands before a section.
#[derive(Clone, Copy)]
struct Head {
    start: usize,
    section_length: usize,
    checks_length: usize,
}

fn next_head(file: &mut impl Read) -> io::Result<Option<Head>> {
    let mut bytes = [0; 16];
    if files::read_full(file, &mut bytes)? < 16 {
        return Ok(None);
    }
    let mut fields = Fields::new(&bytes);
    Ok(Some(Head {
        start: fields.u64() as usize,
        section_length: fields.u32() as usize,
        checks_length: fields.u32() as usize,
    }))
}

// Makes the checks of the file and counts them. A section that is longer than the space for it ends the file; where the file ends
// early the places behind keep what they held.
fn every_check<F: Fn(Section<'_>, &mut Fields<'_>) -> Outcome>(
    file: &mut impl Read,
    make: F,
) -> io::Result<Tally>
    requires { F.IsAlwaysCallable make }
{
    let mut section_space = [0u8; 4096];
    let mut checks_space = [0u8; 65536];
    let mut tally = Tally::default();
    // Apart from the tally's checks, to which a number returned may add.
    let mut made: u64 = 0;
    for _ in 0..MOST {
        let Some(head) = next_head(file)? else {
            break;
        };
        let Some(bytes) = section_space.get_mut(..head.section_length) else {
            break;
        };
        let Some(checks) = checks_space.get_mut(..head.checks_length) else {
            break;
        };
        files::read_full(file, bytes)?;
        files::read_full(file, checks)?;
        tally.add_section();
        let section = Section {
            bytes,
            start: head.start,
        };
        let mut fields = Fields::new(checks);
        // Every section has a check, and a check has a byte or more.
        tally.add(make(section, &mut fields));
        made = made.saturating_add(1);
        for _ in 0..head.checks_length {
            if fields.is_empty() || made == MOST {
                break;
            }
            tally.add(make(section, &mut fields));
            made = made.saturating_add(1);
        }
        if made == MOST {
            break;
        }
    }
    Ok(tally)
}

// Makes the checks of a file and begins to tell how they came out. Nothing where it cannot be opened, which is told.
pub fn replay<R: Files + Print + Eprint, F: Fn(Section<'_>, &mut Fields<'_>) -> Outcome>(
    rt: &R,
    path: &str,
    make: F,
) -> io::Result<Option<Tally>>
    requires { F.IsAlwaysCallable make }
{
    let Some(mut file) = files::open(rt, path)? else {
        return Ok(None);
    };
    let tally = every_check(&mut file, make)?;
    println!(rt; "{path}:\n{tally}")?;
    Ok(Some(tally))
}
