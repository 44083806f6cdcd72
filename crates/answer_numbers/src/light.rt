// The numbers of a light record.
ghost use Rattle.std.specs.Prelude.{◌≡◌};
ghost use Rattle.answer_numbers.specs.Put.{put};
ghost use Rattle.answer_numbers.specs.Tracks.{light_fields, light};

use crate::answers::Numbers;
use crate::put;
use camera_light::light::LightKeyframeSummary;

#[tactic(auto, unfolding(crate::specs::Tracks::light_fields))]
fn put_fields(values: &mut [u64], at: usize, l: LightKeyframeSummary)
    ensures { values.new ≡ put at (light_fields l) values.old }
{
    let numbers = [
        u64::from(l.selected),
        l.color_offset as u64,
        l.color_byte_length as u64,
        l.direction_offset as u64,
        l.direction_byte_length as u64,
        l.selected_offset as u64,
    ];
    put::put(values, at, &numbers);
}

impl Numbers for LightKeyframeSummary {
    ghost numbers = { light };

    fn put(self, values: &mut [u64]) {
        self.base.put_at(values, 0);
        self.color_bits.put_at(values, 4);
        self.direction_bits.put_at(values, 7);
        put_fields(values, 10, self);
        self.span.put_at(values, 16);
    }
}
