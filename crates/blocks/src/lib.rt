// The records of a kind where they stand in a section, the tracks they make, and what a build of them meets.
#![tactic(auto)]

pub mod block;
pub mod fault;
pub mod key;
pub mod kind;
pub mod track;
