// Document 01, modules 3 and 4, over the lent section and the work slices: index scans, records by index, and chains. One piece of code
// serves bones and morphs, whose additional records begin with the same four numbers.
#![tactic(auto)]

pub mod chain;
pub mod lookup;
pub mod near;
pub mod positions;
pub mod scan;
pub mod standing;
pub mod step;
pub mod walk;
