// Makes the checks that oracle/ wrote from the Rust's answers, of the readers, of the strip call and of the look-up in a list of
// references, and those of strips read back, and counts those that come out otherwise. In the second file of each, numbers are changed, to
// show that this is seen.
#![tactic(auto)]

mod asset_check;
mod reader_calls;
mod reader_check;
mod strip_check;
mod strip_read_check;

use std::io;
use std::rt::Files;
use vectors::file;
use vectors::tally::{Row, Tally};

// How the checks came out that refuse nothing, and those that give each of the refusals.
fn say(rt: &impl Print, tally: Tally, accepted: &str, refusals: &[usize]) -> io::Result<()> {
    println!(rt; "{accepted}: {}", tally.count(Row::Returned(0)))?;
    for refusal in refusals {
        println!(rt;
            "refused {refusal}: {}",
            tally.count(Row::Returned(*refusal))
        )?;
    }
    Ok(())
}

fn replay_readers<R: Files + Print + Eprint>(rt: &R, path: &str) -> io::Result<()> {
    let Some(tally) = file::replay(rt, path, reader_calls::make)? else {
        return Ok(());
    };
    say(rt, tally, "read", &[1, 2, 19, 20])?;
    println!(rt; "bytes: {}", tally.count(Row::Bytes))
}

fn replay_strips<R: Files + Print + Eprint>(rt: &R, path: &str) -> io::Result<()> {
    let Some(tally) = file::replay(rt, path, strip_check::make)? else {
        return Ok(());
    };
    say(
        rt,
        tally,
        "accepted",
        &[1, 2, 3, 4, 5, 6, 7, 8, 10, 11, 12, 13, 14, 15, 17, 18, 20],
    )
}

fn replay_assets<R: Files + Print + Eprint>(rt: &R, path: &str) -> io::Result<()> {
    let Some(tally) = file::replay(rt, path, asset_check::make)? else {
        return Ok(());
    };
    say(rt, tally, "answered", &[21, 22])
}

fn replay_strip_reads<R: Files + Print + Eprint>(rt: &R, path: &str) -> io::Result<()> {
    let Some(tally) = file::replay(rt, path, strip_read_check::make)? else {
        return Ok(());
    };
    say(rt, tally, "answered", &[19, 23, 24, 25])
}

fn main(rt: HostRuntime) -> io::Result<()> {
    replay_readers(&rt, "readers")?;
    replay_readers(&rt, "readers_broken")?;
    replay_strips(&rt, "strips")?;
    replay_strips(&rt, "strips_broken")?;
    replay_assets(&rt, "assets")?;
    replay_assets(&rt, "assets_broken")?;
    replay_strip_reads(&rt, "strip_reads")?;
    replay_strip_reads(&rt, "strip_reads_broken")
}
