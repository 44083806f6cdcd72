// Runs only where a frame of a track is repeated, so that the section is refused. Numbers met one after another: among slots in order, a
// number that stands more than once is marked as met by its first two slots being equal; a number that stands once needs no mark.
ghost use Rattle.std.specs.Prelude.{length};
ghost use Rattle.order.specs.Field.{AllBelow};
ghost use Rattle.order.specs.Find.{NumbersRise};
ghost use Rattle.order.specs.Repeat.{number_at};
ghost use Rattle.order.specs.Met.{FirstTwo, Meets};

use crate::field::Numbers;
use crate::search::Rising;
use crate::slots::Slots;

impl Rising<'_, '_> {
    // The place of the first of the slots with a number, if there are more.
    fn first_two(&self, number: u32) -> Option<usize>
        ensures { FirstTwo (number_at self.now.slots.numbers.section.now self.now.slots.numbers.field self.now.slots.positions.now) (length self.now.slots.positions.now) number result }
    {
        let first = self.first_place(number);
        if 1 < self.slots.positions.len() - first && self.slots.number_at(first + 1) == number {
            Some(first)
        } else {
            None
        }
    }
}

// Whether a number that stands more than once is marked. It is from now on.
pub fn meet(numbers: &Numbers, slots: &mut [u16], number: u32) -> bool
    requires all_below { AllBelow numbers.now.field.count slots.old }
    requires numbers_rise { NumbersRise numbers.now.section.now numbers.now.field slots.old }
    ensures { Meets numbers.now.section.now numbers.now.field number slots.old slots.new result }
{
    let read = Slots {
        numbers: *numbers,
        positions: slots,
    };
    let rising = Rising { slots: read };
    let Some(i) = rising.first_two(number) else {
        return false;
    };
    let next = slots[i + 1];
    if slots[i] == next {
        return true;
    }
    slots[i] = next;
    false
}
