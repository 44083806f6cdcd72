// Files of stored answers, for the program that replays them: sections, the checks behind each, the slices lent to a call, and counts.
// oracle/README.md has the format.
#![tactic(auto)]

pub mod fields;
pub mod file;
pub mod lent;
pub mod tally;
