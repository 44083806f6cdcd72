// Document 01, module 2: reading a model section. Its parts are read in file order, each by its own file here. The readers are alike in
// shape alone: each names the fields of its own struct in the order of the file, so one function for several would be no shorter.
#![tactic(auto)]

pub mod closing;
pub mod display;
pub mod keyframes;
pub mod limits;
pub mod model;
pub mod names;
pub mod opening;
pub mod summary;
