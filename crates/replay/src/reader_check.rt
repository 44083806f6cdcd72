// One check of a reader: what a call is lent, and what it must answer. oracle/README.md has the format.
use answer_numbers::answers::Numbers;
use answer_numbers::{answers, put};
use binary::refusal::Refusal;
use vectors::fields::Fields;
use vectors::lent::{Lent, Place, Size};
use vectors::tally::{Outcome, Row};

#[derive(Clone, Copy)]
pub struct Check {
    pub include_index: bool,
    pub number: usize,
    pub entry: usize,
    // The number returned: 0 or a refusal's, or the length of the bytes.
    returned: usize,
    lent: Size,
}

impl Check {
    // Behind the number of its call.
    pub fn read(checks: &mut Fields<'_>) -> Check {
        let include_index = checks.u8() != 0;
        let room = usize::from(checks.u16());
        let returned = usize::from(checks.u16());
        let held = usize::from(checks.u16());
        Check {
            include_index,
            number: checks.u64() as usize,
            entry: checks.u64() as usize,
            returned,
            lent: Size { room, held },
        }
    }

    // Of an answer that is told in numbers.
    pub fn numbers<T: Numbers + Drop>(
        self,
        checks: &mut Fields<'_>,
        answer: Result<T, Refusal>,
    ) -> Outcome {
        let lent = Lent::read::<u64>(self.lent, checks);
        Outcome {
            row: Row::Returned(self.returned),
            right: lent.right(&mut [u64::BEFORE; 64], |values| {
                answers::say(answer, values) as usize == self.returned
            }),
        }
    }

    // Of an answer that is a part of the section.
    pub fn bytes(self, checks: &mut Fields<'_>, part: &[u8]) -> Outcome {
        let lent = Lent::read::<u8>(self.lent, checks);
        Outcome {
            row: Row::Bytes,
            right: lent.right(&mut [u8::BEFORE; 4096], |output| {
                put::put_part(output, part) == self.returned
            }),
        }
    }
}
