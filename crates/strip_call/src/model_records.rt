// Where a model section's records of a kind stand.
ghost use Rattle.std.specs.Prelude.{◌≡◌, ◌≤◌, length};
ghost use Rattle.std.proofs.Math.Option.{none};
ghost use Rattle.strip_call.specs.Blocks.{block_of, items_of, model_block};
ghost use Rattle.strip_call.specs.Building.{kind_meets};
ghost use Rattle.strip_call.specs.Bytes.{strip_bytes};

use blocks::block::{Block, Records};
use blocks::kind::Kind;
use order::field::Field;
use section::keyframes::Keyframes;
use section::model::Model;

// As wide as document 01's record table says: 58 and 62 bytes of a bone, 17 and 21 of a morph.
#[tactic(auto, unfolding(layout::specs::Records::size))]
fn block(kind: Kind, tracks: usize, keyframes: Keyframes) -> Block
    ensures { result ≡ block_of kind (items_of kind) tracks keyframes }
{
    let (initial, additional) = match kind {
        Kind::Bone => (58, 62),
        Kind::Morph => (17, 21),
    };
    Block {
        kind,
        initials: Field {
            offset: keyframes.initial_offset,
            width: initial,
            count: tracks,
        },
        records: Field {
            offset: keyframes.offset,
            width: additional,
            count: keyframes.count as usize,
        },
    }
}

#[tactic(auto, unfolding(crate::specs::Blocks::bone_block, crate::specs::Blocks::morph_block))]
pub fn model_block(kind: Kind, m: &Model) -> Block
    ensures { result ≡ model_block kind m.now }
{
    let counts = m.front.counts;
    match kind {
        Kind::Bone => block(kind, counts.bones.count as usize, m.keyframes.bones),
        Kind::Morph => block(kind, counts.morphs.count as usize, m.keyframes.morphs),
    }
}

// The records of both kinds of a section. No strip that is built of them is longer than the section.
#[derive(Clone, Copy)]
pub struct ModelRecords<'a> {
    pub bones: Records<'a>,
    pub morphs: Records<'a>,
    pub ghost one_section: { morphs.section.now ≡ bones.section.now },
    pub ghost short: { kind_meets bones.section.now bones.block ≡ none → kind_meets bones.section.now morphs.block ≡ none → length (strip_bytes bones.section.now bones.block morphs.block) ≤ length bones.section.now },
}

impl<'a> ModelRecords<'a> {
    ghost use Rattle.strip_call.specs.Need.{need_of};

    // How many places of each work slice they take.
    pub fn need(&self) -> usize
        ensures { result ≡ need_of self.now }
    {
        self.bones.block.records.count + self.morphs.block.records.count
    }
}
