// Document 01, "Sections by hand": the cases, read, handed to the strip call and listed, strips read back (document 02), and every
// truncation of a section read. Each part stands under its heading.
#![tactic(auto)]

mod listings;
mod readers;
mod sections;
mod strip_calls;
mod strips_read;
mod truncations;

use std::io;

fn main(rt: HostRuntime) -> io::Result<()> {
    println!(rt; "Camera and light sections")?;
    readers::run(&rt)?;
    println!(rt; "Strip calls")?;
    strip_calls::run(&rt)?;
    println!(rt; "Listings")?;
    listings::run(&rt)?;
    println!(rt; "Strips read back")?;
    strips_read::run(&rt)?;
    println!(rt; "Truncations of a model section")?;
    truncations::run(&rt)
}
