// Document 01, the second work slice: which track's chain holds each additional record, and how many links were followed and records
// left out. One piece of code serves bones and morphs.
#![tactic(auto)]

pub mod counts;
pub mod mark;
pub mod rising;
