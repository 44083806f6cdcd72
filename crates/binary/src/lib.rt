// Document 01, module 1: the byte reader, as functions of the lent slice and a position, both by value ("Forms of the Rust that need
// another"). Every position is taken, those past the end too.
#![tactic(auto)]

pub mod blocks;
pub mod counts;
pub mod groups;
pub mod numbers;
pub mod refusal;
pub mod runs;
pub mod strings;
