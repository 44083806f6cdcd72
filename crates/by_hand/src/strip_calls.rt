// The cases of the strip call. Each line has the answer, the two work slices and the output afterwards. Before the call every place of
// the work slices is 7 and every byte of the output ee.

mod say;

use crate::sections::{bones, cases, empty};
use files::hex::Hex;
use say::{Answer, Work};
use std::io;
use strip_call::call;

fn run_lent(
    rt: &impl Print,
    what: &str,
    section: &[u8],
    first: &mut [u16],
    second: &mut [u16],
    output: &mut [u8],
) -> io::Result<()> {
    let answer = call::strip(section, 0, first, second, output);
    println!(rt;
        "{what}: {}, work{} and{}, output {}",
        Answer(answer),
        Work(first),
        Work(second),
        Hex(output)
    )
}

fn run_case(rt: &impl Print, what: &str, section: &[u8]) -> io::Result<()> {
    run_lent(rt, what, section, &mut [7; 2], &mut [7; 2], &mut [238; 28])
}

fn zeros(rt: &impl Print) -> io::Result<()> {
    let s = empty::zeros();
    run_case(rt, "340 zero bytes", &s)?;
    run_case(rt, "339", &s[0..339])
}

// One slice too short.
fn short(rt: &impl Print) -> io::Result<()> {
    let s = bones::linked(1, 1, 0, 0);
    run_lent(
        rt,
        "first slice of 0 places",
        &s,
        &mut [],
        &mut [7; 2],
        &mut [238; 28],
    )?;
    run_lent(
        rt,
        "second slice of 0 places",
        &s,
        &mut [7; 2],
        &mut [],
        &mut [238; 28],
    )?;
    run_lent(
        rt,
        "output of 15 bytes",
        &s,
        &mut [7; 2],
        &mut [7; 2],
        &mut [238; 15],
    )
}

pub fn run(rt: &impl Print) -> io::Result<()> {
    let run_case = |what: &str, section: &[u8]| run_case(rt, what, section);
    zeros(rt)?;
    cases::negative_count(run_case)?;
    cases::orientations(run_case)?;
    cases::indices(run_case)?;
    cases::links(run_case)?;
    short(rt)
}
