// A step along a chain: the record that a link leads to, the link that leads on from it, and where the record of that one may be found.
ghost use Rattle.chains.specs.Step.{Leads};

use crate::lookup::Indexed;
use crate::near::Near;

#[derive(Clone, Copy)]
pub struct Step {
    pub position: usize,
    pub next: u32,
    pub near: Near,
}

impl<'a> Indexed<'a> {
    // None where no record bears the link.
    #[inline(always)]
    pub fn step(&self, link: u32, near: Near) -> Option<Step>
        ensures { Leads self.now.records.section.now self.now.records.block link result }
    {
        let at = self.lookup(link, near)?;
        Some(Step {
            position: at.position,
            next: self.records.next_at(at.position),
            near: near.after(at.place),
        })
    }
}
