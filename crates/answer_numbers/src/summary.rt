// The numbers of a model section's summary.
ghost use Rattle.std.specs.Prelude.{◌≡◌};
ghost use Rattle.answer_numbers.specs.Put.{put};
ghost use Rattle.answer_numbers.specs.Summary.{
  places,
  view,
  selected,
  counts,
  ending,
  scalars as scalars_of,
  record_offsets,
  state_offsets,
  offsets,
  model_summary,
};

use crate::answers::Numbers;
use crate::{put, scalars};
use section::summary::{PmmDocumentModelSections, PmmDocumentModelSummary};

#[tactic(auto, unfolding(crate::specs::Summary::places))]
fn put_places(values: &mut [u64], at: usize, s: PmmDocumentModelSummary)
    ensures { values.new ≡ put at (places s) values.old }
{
    let numbers = [
        s.document_model_index as u64,
        s.offset as u64,
        s.offset_end as u64,
        s.path_offset as u64,
        s.bone_count as u64,
        s.morph_count as u64,
        s.constraint_bone_count as u64,
        s.outside_parent_subject_bone_count as u64,
    ];
    put::put(values, at, &numbers);
}

#[tactic(auto, unfolding(crate::specs::Summary::view))]
fn put_view(values: &mut [u64], at: usize, s: PmmDocumentModelSummary)
    ensures { values.new ≡ put at (view s) values.old }
{
    let numbers = [
        s.draw_order_index as u64,
        s.transform_order_index as u64,
        scalars::pattern(s.selected_bone_index),
    ];
    put::put(values, at, &numbers);
}

#[tactic(auto, unfolding(crate::specs::Summary::selected))]
fn put_selected(values: &mut [u64], at: usize, s: [i32; 4])
    ensures { values.new ≡ put at (selected s) values.old }
{
    let [a, b, c, d] = s.map(scalars::pattern);
    put::put(values, at, &[a, b, c, d]);
}

#[tactic(auto, unfolding(crate::specs::Summary::counts))]
fn put_counts(values: &mut [u64], at: usize, s: PmmDocumentModelSummary)
    ensures { values.new ≡ put at (counts s) values.old }
{
    let numbers = [
        scalars::pattern(s.vertical_scroll),
        s.initial_bone_keyframes as u64,
        s.bone_keyframes as u64,
        s.initial_morph_keyframes as u64,
        s.morph_keyframes as u64,
        s.initial_model_keyframes as u64,
        s.model_keyframes as u64,
    ];
    put::put(values, at, &numbers);
}

#[tactic(auto, unfolding(crate::specs::Summary::ending))]
fn put_ending(values: &mut [u64], at: usize, s: PmmDocumentModelSummary)
    ensures { values.new ≡ put at (ending s) values.old }
{
    let numbers = [
        scalars::pattern(s.last_frame_index),
        u64::from(s.visible),
        u64::from(s.blend_enabled),
        u64::from(s.edge_width_bits),
        u64::from(s.self_shadow_enabled),
    ];
    put::put(values, at, &numbers);
}

fn put_scalars(values: &mut [u64], s: PmmDocumentModelSummary)
    ensures { values.new ≡ put 0 (scalars_of s) values.old }
{
    put_places(values, 0, s);
    put_view(values, 8, s);
    put_selected(values, 11, s.selected_morph_indices);
    put_counts(values, 15, s);
    put_ending(values, 22, s);
}

#[tactic(auto, unfolding(crate::specs::Summary::record_offsets))]
fn put_record_offsets(values: &mut [u64], at: usize, s: PmmDocumentModelSections)
    ensures { values.new ≡ put at (record_offsets s) values.old }
{
    let numbers = [
        s.initial_bone_keyframes_offset as u64,
        s.bone_keyframe_count_offset as u64,
        s.bone_keyframes_offset as u64,
        s.bone_keyframes_end_offset as u64,
        s.initial_morph_keyframes_offset as u64,
        s.morph_keyframe_count_offset as u64,
        s.morph_keyframes_offset as u64,
        s.morph_keyframes_end_offset as u64,
        s.initial_model_keyframe_offset as u64,
        s.model_keyframe_count_offset as u64,
        s.model_keyframes_offset as u64,
        s.model_keyframes_end_offset as u64,
    ];
    put::put(values, at, &numbers);
}

#[tactic(auto, unfolding(crate::specs::Summary::state_offsets))]
fn put_state_offsets(values: &mut [u64], at: usize, s: PmmDocumentModelSections)
    ensures { values.new ≡ put at (state_offsets s) values.old }
{
    let numbers = [
        s.bone_states_offset as u64,
        s.morph_states_offset as u64,
        s.constraint_states_offset as u64,
        s.outside_parent_states_offset as u64,
    ];
    put::put(values, at, &numbers);
}

fn put_offsets(values: &mut [u64], s: PmmDocumentModelSections)
    ensures { values.new ≡ put 27 (offsets s) values.old }
{
    put_record_offsets(values, 27, s);
    put_state_offsets(values, 39, s);
}

impl Numbers for PmmDocumentModelSummary {
    ghost numbers = { model_summary };

    fn put(self, values: &mut [u64]) {
        put_scalars(values, self);
        put_offsets(values, self.sections);
    }
}
