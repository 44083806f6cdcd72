// Document 02, T-01: which of a lent list of asset references is a model's path.
#![tactic(auto)]

pub mod index;
mod list;
mod normalize;
pub mod refusal;
