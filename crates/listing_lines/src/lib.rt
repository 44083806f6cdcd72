// The lines that list a model section (document 01, "Sections by hand", the listing program).
#![tactic(auto)]

mod decimal;
mod lines;
pub mod list;
mod rows;
pub mod section_lines;
mod strip_lines;
mod text;
