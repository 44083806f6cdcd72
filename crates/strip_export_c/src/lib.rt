// The calls of `strip_export` as a static library: the library's calls under their C names, with the library's clauses.
// ../strip_export/include/limdroven_strip.h declares them. No other crate can use a static library, so the calls stand here once more.
#![tactic(auto)]

pub mod call;
pub mod reading;
