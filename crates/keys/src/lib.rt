// Document 01, modules 5 and 6: what is asked of one key, and one key's bytes in a strip.
#![tactic(auto)]

pub mod body;
pub mod curves;
pub mod fields;
pub mod plain;
pub mod pose;
pub mod write;
