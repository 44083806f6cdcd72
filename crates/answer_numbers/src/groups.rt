// The numbers of what records and states have in common.
ghost use Rattle.std.specs.Prelude.{◌≡◌};
ghost use Rattle.answer_numbers.specs.Groups.{base, vector, orientation, pose, span};

use crate::answers::Numbers;
use crate::{put, scalars};
use records::base::{PmmDocumentBaseKeyframeSummary, Span};
use records::pose::PoseBits;

impl Numbers for PmmDocumentBaseKeyframeSummary {
    ghost numbers = { base };

    #[tactic(auto, unfolding(crate::specs::Groups::base))]
    fn put(self, values: &mut [u64]) {
        let numbers = [
            scalars::index(self.index),
            scalars::pattern(self.frame_index),
            scalars::pattern(self.previous_keyframe_index),
            scalars::pattern(self.next_keyframe_index),
        ];
        put::put(values, 0, &numbers);
    }
}

// The bits of several f32, as they are. Two impls: of an array of any length it would not be known that it fits in memory.
impl Numbers for [u32; 3] {
    ghost numbers = { vector };

    #[tactic(auto, unfolding(crate::specs::Groups::vector))]
    fn put(self, values: &mut [u64]) {
        let [x, y, z] = self.map(u64::from);
        put::put(values, 0, &[x, y, z]);
    }
}

impl Numbers for [u32; 4] {
    ghost numbers = { orientation };

    #[tactic(auto, unfolding(crate::specs::Groups::orientation))]
    fn put(self, values: &mut [u64]) {
        let [x, y, z, w] = self.map(u64::from);
        put::put(values, 0, &[x, y, z, w]);
    }
}

impl Numbers for PoseBits {
    ghost numbers = { pose };

    fn put(self, values: &mut [u64]) {
        self.translation.put_at(values, 0);
        self.orientation.put_at(values, 3);
    }
}

impl Numbers for Span {
    ghost numbers = { span };

    #[tactic(auto, unfolding(crate::specs::Groups::span))]
    fn put(self, values: &mut [u64]) {
        let numbers = [
            self.offset as u64,
            self.byte_length as u64,
            self.payload_offset as u64,
            self.payload_byte_length as u64,
        ];
        put::put(values, 0, &numbers);
    }
}
