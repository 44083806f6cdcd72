// What the calls for C answer, as numbers in a slice of u64: the answers of documents 01 and 02 field by field, in a fixed order. The
// writers are alike in shape alone: each names the fields of its own struct. An offset or a count is cast where it is named: no u64 is made
// `From` a usize, and of `map` over an array of twelve the check finds no answer, of `map` over one of any length none without a bound on
// it.
#![tactic(auto)]

pub mod answers;
pub mod camera;
pub mod groups;
pub mod keyframes;
pub mod light;
pub mod put;
pub mod reference;
pub mod refusals;
pub mod scalars;
pub mod span;
pub mod states;
pub mod summary;
pub mod track;
