// Document 01, "Records": the items of each kind of record, and a record or state read at an offset. It is first read as its bits,
// an i32 or f32 as its 32 bits; its summary, as the Rust has it, is made of these, and has the bits of its f32 besides: Rattle's f32 has
// one NaN, the file has many, and what is answered in C is the file's. The readers are alike in shape alone: each names the fields of its
// own struct in the order of the file, so one function for several would be no shorter. They take a slice and a position by value, as
// those of binary do.
#![tactic(auto)]

pub mod base;
pub mod bone;
pub mod curves;
pub mod items;
pub mod model;
pub mod morph;
pub mod pose;
pub mod states;
