// Where an entry of a list stands.
ghost use Rattle.std.specs.Prelude.{◌≡◌};
ghost use Rattle.binary.specs.Answers.{read, skipped};
ghost use Rattle.section.specs.Limits.{edition1};
ghost use Rattle.entries.specs.Lists.{entries_of, entry_at, locate as locate_of};
ghost use Rattle.entries.specs.Entries.{listing};

use binary::blocks;
use binary::blocks::Items;
use binary::refusal::{Read, Refusal};
use records::items;
use section::model;
use section::model::Model;

// The lists whose entries have fixed items: document 01 answers "each list of the summary on its own".
#[derive(Clone, Copy)]
pub enum SectionList {
    InitialBones,
    Bones,
    InitialMorphs,
    Morphs,
    InitialModels,
    Models,
    BoneStates,
    MorphStates,
    ConstraintStates,
    OutsideParentStates,
}

// How many entries there are, where the first stands, and the items of one.
#[derive(Clone, Copy)]
pub struct Entries {
    pub count: u32,
    pub offset: usize,
    pub items: Items,
}

#[tactic(auto, unfolding(crate::specs::Lists::entries_of))]
fn entries_of(list: SectionList, m: Model) -> Entries
    ensures { listing result ≡ entries_of list m }
{
    let counts = m.front.counts;
    let bones = m.keyframes.bones;
    let morphs = m.keyframes.morphs;
    let models = m.keyframes.models;
    let states = m.states;
    match list {
        SectionList::InitialBones => Entries {
            count: counts.bones.count,
            offset: bones.initial_offset,
            items: items::bone_items(2),
        },
        SectionList::Bones => Entries {
            count: bones.count,
            offset: bones.offset,
            items: items::bone_items(3),
        },
        SectionList::InitialMorphs => Entries {
            count: counts.morphs.count,
            offset: morphs.initial_offset,
            items: items::morph_items(2),
        },
        SectionList::Morphs => Entries {
            count: morphs.count,
            offset: morphs.offset,
            items: items::morph_items(3),
        },
        SectionList::InitialModels => Entries {
            count: 1,
            offset: models.initial_offset,
            items: items::model_items(2, counts.constraints, counts.parents),
        },
        SectionList::Models => Entries {
            count: models.count,
            offset: models.offset,
            items: items::model_items(3, counts.constraints, counts.parents),
        },
        SectionList::BoneStates => Entries {
            count: counts.bones.count,
            offset: states.bones,
            items: items::bone_state_items(),
        },
        SectionList::MorphStates => Entries {
            count: counts.morphs.count,
            offset: states.morphs,
            items: items::morph_state_items(),
        },
        SectionList::ConstraintStates => Entries {
            count: counts.constraints,
            offset: states.constraints,
            items: items::constraint_state_items(),
        },
        SectionList::OutsideParentStates => Entries {
            count: counts.parents,
            offset: states.parents,
            items: items::parent_state_items(),
        },
    }
}

// Entry `number` of the list: that many others stand before it.
#[tactic(auto, unfolding(crate::specs::Lists::entry_at))]
pub fn entry(s: &[u8], entries: &Entries, number: usize) -> Result<usize, Refusal>
    ensures { skipped result ≡ entry_at (listing entries.now) number s.now }
{
    let count = entries.count as usize;
    if count <= number {
        return Err(Refusal::Absent);
    }
    blocks::skip_records(s, entries.offset, number as u32, &entries.items)
}

// The section, and the offset of the entry.
#[tactic(auto, unfolding(crate::specs::Lists::locate))]
pub fn locate(s: &[u8], start: usize, list: SectionList, number: usize) -> Read<Model>
    ensures { read result ≡ locate_of edition1 list number s.now start }
{
    let (m, _) = model::read_model(s, start)?;
    let at = entry(s, &entries_of(list, m), number)?;
    Ok((m, at))
}
