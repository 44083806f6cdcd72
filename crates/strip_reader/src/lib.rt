// Document 02, T-02: strips read back.
#![tactic(auto)]

pub mod all_keys;
mod bone_fields;
mod bone_key;
mod collected;
pub mod counts;
mod find;
mod frame;
mod front;
mod judge;
pub mod key;
mod morph_key;
mod pass;
pub mod refusal;
mod repeated;
mod rows;
mod skip;
pub mod track;
