// The calls of document 01, modules 2 and 7, and of document 02, T-01, for C, as a static library: an answer's numbers are written into a
// slice of u64, its bytes into a slice of u8, both from place 0 on as far as the slice reaches. include/limdroven.h says what each call
// writes.
// C has no type parameters, and no enum with values: each call is a function of its own, with its clause, a refusal a u32, a value a u64.
// No other crate can use a static library, so the calls hold nothing but a call of the library.
#![tactic(auto)]

pub mod interpolation;
pub mod keyframes;
pub mod model_lists;
pub mod payloads;
pub mod references;
pub mod spans;
pub mod states;
pub mod summary;
pub mod texts;
pub mod track;
pub mod track_keyframes;
