// The cases, listed as the listing program lists them. Each listing stands under the case's name.

use crate::sections::{bones, cases, empty, morphs};
use listing_lines::list;
use std::io;

fn run_from(rt: &impl Print, what: &str, section: &[u8], start: usize) -> io::Result<()> {
    println!(rt; "{what}")?;
    list::list(rt, section, start)
}

fn zeros(rt: &impl Print) -> io::Result<()> {
    let s = empty::zeros();
    run_from(rt, "340 zero bytes", &s, 0)?;
    run_from(rt, "339 of them", &s[0..339], 0)?;
    run_from(rt, "340 zero bytes, start 340", &s, 340)?;
    run_from(rt, "340 zero bytes, start 341", &s, 341)
}

// A loose record's weight is not asked.
fn weights<F: Fn(&str, &[u8]) -> io::Result<()>>(run: F) -> io::Result<()>
    requires { F.IsAlwaysCallable run }
{
    for (what, morph_next, weight) in [
        ("one morph, weight 1 at frame 1", 1, 1.0),
        ("weight infinite", 1, f32::INFINITY),
        ("weight not a number", 1, f32::NAN),
        ("weight infinite in a loose record", 0, f32::INFINITY),
    ] {
        run(what, &morphs::one_morph(morph_next, weight))?;
    }
    Ok(())
}

pub fn run(rt: &impl Print) -> io::Result<()> {
    let run = |what: &str, section: &[u8]| run_from(rt, what, section, 0);
    zeros(rt)?;
    cases::negative_count(run)?;
    cases::orientations(run)?;
    cases::indices(run)?;
    run(
        "link to 2, which no record bears",
        &bones::linked(2, 1, 0, 0),
    )?;
    cases::links(run)?;
    run("one record linked, one loose", &bones::linked_and_loose())?;
    weights(run)
}
