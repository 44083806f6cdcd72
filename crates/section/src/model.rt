// A whole model section.
ghost use Rattle.std.specs.Prelude.{◌≡◌};
ghost use Rattle.binary.specs.Answers.{read};
ghost use Rattle.section.specs.Model.{front, model_parts, model_section};
ghost use Rattle.section.specs.Limits.{edition1};

use crate::closing::{Ending, States};
use crate::display::{Scroll, View};
use crate::keyframes::KeyframeBlocks;
use crate::limits::EDITION_1;
use crate::names::Counts;
use crate::opening::Opening;
use crate::{closing, display, keyframes, names, opening};
use binary::refusal::{Read, Refusal};

// All that stands before the records.
#[derive(Clone, Copy)]
pub struct Front {
    pub opening: Opening,
    pub counts: Counts,
    pub view: View,
    pub scroll: Scroll,
}

#[derive(Clone, Copy)]
pub struct Model {
    pub front: Front,
    pub keyframes: KeyframeBlocks,
    pub states: States,
    pub ending: Ending,
}

#[tactic(auto, unfolding(crate::specs::Model::front))]
pub fn read_front(s: &[u8], at: usize) -> Read<Front>
    ensures { read result ≡ front edition1 s.now at }
{
    let (opening, at) = opening::read_opening(s, at)?;
    let (counts, at) = names::read_counts(s, at)?;
    let (view, at) = display::read_view(s, at)?;
    let (scroll, next) = display::read_scroll(s, at)?;
    let front = Front {
        opening,
        counts,
        view,
        scroll,
    };
    Ok((front, next))
}

#[tactic(auto, unfolding(crate::specs::Model::model_parts))]
fn read_parts(s: &[u8], at: usize) -> Read<Model>
    ensures { read result ≡ model_parts edition1 s.now at }
{
    let (front, at) = read_front(s, at)?;
    let (keyframes, at) = keyframes::read_keyframe_blocks(s, at, front.counts)?;
    let (states, at) = closing::read_states(s, at, front.counts)?;
    let (ending, next) = closing::read_ending(s, at)?;
    let model = Model {
        front,
        keyframes,
        states,
        ending,
    };
    Ok((model, next))
}

#[tactic(auto, unfolding(crate::specs::Model::model_section))]
pub fn read_model(s: &[u8], start: usize) -> Read<Model>
    ensures { read result ≡ model_section edition1 s.now start }
{
    if EDITION_1.bytes < s.len() {
        return Err(Refusal::TooLong);
    }
    read_parts(s, start)
}
