// Document 01, "Sections by hand": the listing program. It reads one model section from standard input and prints its counts, every
// key of its strip and how many records are loose, or the number of the refusal.
#![tactic(auto)]

use binary::refusal::Refusal;
use listing_lines::list;
use std::io;

fn main(rt: HostRuntime) -> io::Result<()> {
    let mut input = rt.stdin();
    let mut space = [0; 65536];
    let n = files::read_full(&mut input, &mut space)?;
    // More comes than there is space for.
    if n == space.len() && files::read_full(&mut input, &mut [0])? == 1 {
        return println!(rt; "refused {}", Refusal::TooLong.number());
    }
    list::list(&rt, &space[..n], 0)
}
