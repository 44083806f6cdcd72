// The walk and the record tables of document 01 as definitions (specs/), with their laws (proofs/). The one type of code here is that
// of a part of a section, which the definitions and the calls share.
#![tactic(auto)]

// Where the bytes of a name or a path stand in the section, and how many they are.
#[derive(Clone, Copy)]
pub struct Part {
    pub offset: usize,
    pub byte_length: usize,
}
