// The strip call of document 01 and the calls of document 02, T-02, for C, which has no enum with values: a refusal is its number, as a
// u32, and its values are u64 in a slice.
#![tactic(auto)]

pub mod call;
pub mod reading;
mod values;
