// The number of a reference in a list, or that there is none.
ghost use Rattle.std.specs.Prelude.{◌≡◌};
ghost use Rattle.answer_numbers.specs.Put.{put};
ghost use Rattle.answer_numbers.specs.Scalars.{reference_index};

use crate::answers::Numbers;
use crate::put;

impl Numbers for Option<usize> {
    ghost numbers = { reference_index };

    fn put(self, values: &mut [u64]) {
        let number = match self {
            Some(number) => number as u64,
            None => u64::MAX,
        };
        put::put(values, 0, &[number]);
    }
}
