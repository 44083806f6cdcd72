// The record of a number, among slots whose numbers do not fall.
ghost use Rattle.std.specs.Prelude.{length};
ghost use Rattle.order.specs.Find.{NumbersRise, Stands, Finds};
ghost use Rattle.order.specs.Met.{FirstPlace};
ghost use Rattle.order.specs.Repeat.{number_at};

use crate::slots::Slots;

impl Slots<'_, '_> {
    // In files that MMD writes the numbers are consecutive: a number stands as far behind the first slot as it is above the first slot's
    // number.
    fn find_consecutive(&self, number: u32) -> Option<usize>
        ensures { Stands self.now.numbers.section.now self.now.numbers.field self.now.positions.now number result }
    {
        if self.positions.is_empty() {
            return None;
        }
        let i = number.checked_sub(self.number_at(0))? as usize;
        if i < self.positions.len() && self.number_at(i) == number {
            Some(i)
        } else {
            None
        }
    }
}

// Slots whose numbers do not fall.
#[derive(Clone, Copy)]
pub struct Rising<'s, 'p> {
    pub slots: Slots<'s, 'p>,
    pub ghost numbers_rise: { NumbersRise slots.numbers.section.now slots.numbers.field slots.positions.now },
}

impl Rising<'_, '_> {
    // How many slots have a number below the given one, which is the first place of that number, if it is there.
    // The slice's search asks for an answer of any u16; the slots hold positions of records, so the first test is always met.
    pub(crate) fn first_place(&self, number: u32) -> usize
        ensures { FirstPlace (number_at self.now.slots.numbers.section.now self.now.slots.numbers.field self.now.slots.positions.now) (length self.now.slots.positions.now) number result }
    {
        let numbers = self.slots.numbers;
        self.slots.positions.partition_point(|p| {
            (*p as usize) < numbers.field.count && numbers.at(*p as usize) < number
        })
    }

    // Runs only where indices have gaps, a link leads to no record, or frames of a track do not rise. Kept out of line: inlined in `find`,
    // it makes the strips of files in MMD's own order, which never come here, take 7 to 24 per cent more instructions.
    #[inline(never)]
    fn find_by_halves(&self, number: u32) -> Option<usize>
        ensures { Finds self.now.slots.numbers.section.now self.now.slots.numbers.field self.now.slots.positions.now number result }
    {
        let i = self.first_place(number);
        if i < self.slots.positions.len() && self.slots.number_at(i) == number {
            Some(i)
        } else {
            None
        }
    }

    pub fn find(&self, number: u32) -> Option<usize>
        ensures { Finds self.now.slots.numbers.section.now self.now.slots.numbers.field self.now.slots.positions.now number result }
    {
        // Tried by `or_else`: the check finds both arms alone; of the closure's answer it would need a proof by hand.
        match self.slots.find_consecutive(number) {
            Some(i) => Some(i),
            None => self.find_by_halves(number),
        }
    }
}
