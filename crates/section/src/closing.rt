// A model section's end: the states, then blend, edge width, self shadow and transform order.
ghost use Rattle.std.specs.Prelude.{◌≡◌};
ghost use Rattle.binary.specs.Answers.{read};
ghost use Rattle.section.specs.Model.{states, ending};

use crate::names::Counts;
use binary::refusal::Read;
use binary::{blocks, numbers};
use records::items;

// The offset of each block of states.
#[derive(Clone, Copy)]
pub struct States {
    pub bones: usize,
    pub morphs: usize,
    pub constraints: usize,
    pub parents: usize,
}

#[derive(Clone, Copy)]
pub struct Ending {
    pub blend_enabled: bool,
    pub edge_width: u32,
    pub self_shadow_enabled: bool,
    pub transform_order_index: u8,
}

#[tactic(auto, unfolding(crate::specs::Model::states))]
pub fn read_states(s: &[u8], at: usize, counts: Counts) -> Read<States>
    ensures { read result ≡ states counts s.now at }
{
    let (bone, morph) = (items::bone_state_items(), items::morph_state_items());
    let morphs = blocks::skip_records(s, at, counts.bones.count, &bone)?;
    let constraints = blocks::skip_records(s, morphs, counts.morphs.count, &morph)?;
    let (constraint, parent) = (items::constraint_state_items(), items::parent_state_items());
    let parents = blocks::skip_records(s, constraints, counts.constraints, &constraint)?;
    let next = blocks::skip_records(s, parents, counts.parents, &parent)?;
    let states = States {
        bones: at,
        morphs,
        constraints,
        parents,
    };
    Ok((states, next))
}

#[tactic(auto, unfolding(crate::specs::Model::ending))]
pub fn read_ending(s: &[u8], at: usize) -> Read<Ending>
    ensures { read result ≡ ending s.now at }
{
    let (blend_enabled, at) = numbers::read_bool(s, at)?;
    let (edge_width, at) = numbers::read_u32_le(s, at)?;
    let (self_shadow_enabled, at) = numbers::read_bool(s, at)?;
    let (transform_order_index, next) = numbers::read_u8(s, at)?;
    let ending = Ending {
        blend_enabled,
        edge_width,
        self_shadow_enabled,
        transform_order_index,
    };
    Ok((ending, next))
}
