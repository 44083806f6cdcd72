// The numbers of a part of the section.
ghost use Rattle.std.specs.Prelude.{◌≡◌};
ghost use Rattle.answer_numbers.specs.Spans.{span};

use crate::answers::Numbers;
use crate::put;
use layout::Part;

impl Numbers for Part {
    ghost numbers = { span };

    fn put(self, values: &mut [u64]) {
        put::put(values, 0, &[self.offset as u64, self.byte_length as u64]);
    }
}
