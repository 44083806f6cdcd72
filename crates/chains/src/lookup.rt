// The record that bears an index, found in the first work slice.
ghost use Rattle.std.specs.Prelude.{◌≡◌};
ghost use Rattle.clip.specs.Scan.{record_of};
ghost use Rattle.blocks.specs.Block.{links};
ghost use Rattle.chains.specs.Lookup.{Ordered, found_read};

use crate::near::Near;
use crate::standing::Standing;
use blocks::block::Records;
use order::field::Numbers;
use order::search::Rising;
use order::slots::Slots;

// The records whose index scan has passed, and the first work slice, which holds their positions by rising index.
#[derive(Clone, Copy)]
pub struct Indexed<'a> {
    pub records: Records<'a>,
    pub slots: &'a [u16],
    pub ghost ordered: { Ordered records.section.now records.block slots.now },
}

impl<'a> Indexed<'a> {
    #[tactic(auto, using(crate::proofs::ByIndex::lookups))]
    fn by_index(&self, link: u32) -> Option<Standing>
        ensures { found_read result ≡ record_of (links self.now.records.section.now self.now.records.block) link }
    {
        let numbers = Numbers {
            section: self.records.section,
            field: self.records.block.records,
        };
        let slots = Slots {
            numbers,
            positions: self.slots,
        };
        let rising = Rising { slots };
        let place = rising.find(link)?;
        let position = self.slots[place] as usize;
        Some(Standing { position, place })
    }

    // The guess first: if the record that stands there bears the link, no other one does.
    #[tactic(auto, using(crate::proofs::ByIndex::lookups))]
    pub fn lookup(&self, link: u32, near: Near) -> Option<Standing>
        ensures { found_read result ≡ record_of (links self.now.records.section.now self.now.records.block) link }
    {
        let place = near.next;
        if place < self.slots.len() {
            let position = self.slots[place] as usize;
            if self.records.index_at(position) == link {
                return Some(Standing { position, place });
            }
        }
        self.by_index(link)
    }
}
