// The numbers of a camera record.
ghost use Rattle.std.specs.Prelude.{◌≡◌};
ghost use Rattle.answer_numbers.specs.Put.{put};
ghost use Rattle.answer_numbers.specs.Tracks.{camera_view, camera_fields, camera_offsets, camera_rest, camera};

use crate::answers::Numbers;
use crate::{put, scalars};
use camera_light::camera::{CameraKeyframeSummary, CameraOffsets};

fn put_view(values: &mut [u64], c: CameraKeyframeSummary)
    ensures { values.new ≡ put 0 (camera_view c) values.old }
{
    c.base.put_at(values, 0);
    put::put(values, 4, &[u64::from(c.distance_bits)]);
    c.look_at_bits.put_at(values, 5);
    c.angle_bits.put_at(values, 8);
}

#[tactic(auto, unfolding(crate::specs::Tracks::camera_fields))]
fn put_fields(values: &mut [u64], at: usize, c: CameraKeyframeSummary)
    ensures { values.new ≡ put at (camera_fields c) values.old }
{
    let numbers = [
        scalars::pattern(c.parent_model_index),
        scalars::pattern(c.parent_model_bone_index),
        u64::from(c.perspective_view),
        scalars::pattern(c.fov),
        u64::from(c.selected),
    ];
    put::put(values, at, &numbers);
}

#[tactic(auto, unfolding(crate::specs::Tracks::camera_offsets))]
fn put_offsets(values: &mut [u64], at: usize, o: CameraOffsets)
    ensures { values.new ≡ put at (camera_offsets o) values.old }
{
    let numbers = [
        o.distance_offset as u64,
        o.look_at_offset as u64,
        o.look_at_byte_length as u64,
        o.angle_offset as u64,
        o.angle_byte_length as u64,
        o.parent_model_index_offset as u64,
        o.parent_model_bone_index_offset as u64,
        o.interpolation_offset as u64,
        o.interpolation_byte_length as u64,
        o.perspective_view_offset as u64,
        o.fov_offset as u64,
        o.selected_offset as u64,
    ];
    put::put(values, at, &numbers);
}

fn put_rest(values: &mut [u64], c: CameraKeyframeSummary)
    ensures { values.new ≡ put 11 (camera_rest c) values.old }
{
    put_fields(values, 11, c);
    put_offsets(values, 16, c.offsets);
    c.span.put_at(values, 28);
}

impl Numbers for CameraKeyframeSummary {
    ghost numbers = { camera };

    fn put(self, values: &mut [u64]) {
        put_view(values, self);
        put_rest(values, self);
    }
}
