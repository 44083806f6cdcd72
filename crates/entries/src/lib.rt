// Document 01, module 2: the lists of a model section's summary, each entry by its number from 0, and the parts of the section
// that hold names, the path and payloads. Every call reads the section again, because it trusts no caller; that takes time in the
// number of names, whatever the number of records.
#![tactic(auto)]

pub mod interpolation;
pub mod keyframe;
pub mod keyframes;
pub mod lists;
pub mod model_lists;
pub mod parts;
pub mod states;
pub mod texts;
