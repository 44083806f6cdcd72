// Positions of records put in rising order by a number of each record, in place, the record of a number found among them, and numbers
// that stand twice. Each call takes about n log n steps at most, whatever the bytes are, and no memory of its own.
#![tactic(auto)]

mod consecutive;
pub mod field;
pub mod met;
pub mod repeats;
pub mod search;
pub mod slots;
pub mod sorting;
