// Document 01, module 6: the tracks of a strip, measured and written. One piece of code serves bones and morphs. The output and the place
// stand beside one another, as in keys, fields, which says what was tried.
#![tactic(auto)]

pub mod chain;
pub mod key;
pub mod track;
pub mod tracks;
