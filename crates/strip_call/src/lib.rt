// Document 01, modules 5 and 6: the strip call. A model section is read, its clip built, and the strip written; the two work slices stand
// in for the Rust's maps and sets.
#![tactic(auto)]

pub mod answer;
mod build;
pub mod call;
mod clip_build;
mod clip_bytes;
mod model_records;
