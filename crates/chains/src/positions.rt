// The positions of a chain's records, in chain order.
ghost use Rattle.std.specs.Prelude.{◌≡◌};
ghost use Rattle.blocks.specs.Track.{number_of_track};
ghost use Rattle.chains.specs.Chain.{Along};

use crate::chain::Chain;
use crate::near::Near;

// A chain followed by its links: the next link, where its record may be found, and how many records were passed. That number is no index:
// what is left is the chain without so many records (specs/Positions).
#[derive(Drop)]
pub struct Positions<'a> {
    chain: Chain<'a>,
    link: u32,
    near: Near,
    taken: usize,
    ghost along: { Along chain.indexed.records.section.now chain.indexed.records.block (number_of_track chain.track) taken link },
}

impl<'a> Iterator for Positions<'a> {
    ghost use Rattle.std.specs.Iterator.{YieldsFirst, item_count};
    ghost use Rattle.chains.specs.Positions.{positions_left};

    type Item = usize;

    ghost next_gives = { YieldsFirst positions_left };

    ghost remaining = { item_count positions_left };

    // Inlined, and so is a step: a chain may be one record long.
    #[inline(always)]
    fn next(&mut self) -> Option<usize> {
        if self.link == 0 {
            return None;
        }
        let Some(step) = self.chain.indexed.step(self.link, self.near) else {
            unreachable!()
        };
        self.near = step.near;
        self.link = step.next;
        self.taken += 1;
        Some(step.position)
    }
}

impl<'a> Chain<'a> {
    ghost use Rattle.chains.specs.Positions.{positions_left, records_of};

    pub fn positions(&self) -> Positions<'a>
        ensures { positions_left result ≡ records_of self.now }
    {
        Positions {
            chain: *self,
            link: self.indexed.records.first_link(self.track),
            near: Near::default(),
            taken: 0,
        }
    }
}
