// The sections, made in memory.

pub mod bones;
pub mod cases;
pub mod empty;
pub mod morphs;
mod put;
