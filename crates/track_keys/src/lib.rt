// Document 01, module 5: the keys of each track in "Build order", 10 to 14. One piece of code serves bones and morphs.
#![tactic(auto)]

pub mod frames;
pub mod key;
pub mod ready;
pub mod tracks;
