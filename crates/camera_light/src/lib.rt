// Document 01, module 7: camera and light sections, their records by number, and payloads as parts of the section. The readers of the two
// kinds are alike in shape alone: each names its own fields. The four values that say which record is asked stand beside one another, for
// the reason in entries, keyframe.
#![tactic(auto)]

pub mod camera;
pub mod items;
pub mod light;
pub mod track;
pub mod vector;
