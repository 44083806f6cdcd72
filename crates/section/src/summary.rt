// The Rust's summary of a model section. Of its fields, `slot_index` and the asset reference are left out (document 01, module 2);
// names, paths, records and states are answered by number elsewhere. Besides the edge's width it has the width's bits: Rattle's f32 has one
// NaN, the bits are the file's.
ghost use Rattle.std.specs.Prelude.{◌≡◌, map};
ghost use Rattle.layout.specs.Numbers.{signed};
ghost use Rattle.binary.specs.Answers.{answer_read};
ghost use Rattle.section.specs.Limits.{edition1};
ghost use Rattle.section.specs.Summary.{sections_of, summary_of, model_summary};

use crate::model;
use crate::model::Model;
use binary::refusal::Refusal;
use std::num;

#[derive(Clone, Copy)]
pub struct PmmDocumentModelSections {
    pub initial_bone_keyframes_offset: usize,
    pub bone_keyframe_count_offset: usize,
    pub bone_keyframes_offset: usize,
    pub bone_keyframes_end_offset: usize,
    pub initial_morph_keyframes_offset: usize,
    pub morph_keyframe_count_offset: usize,
    pub morph_keyframes_offset: usize,
    pub morph_keyframes_end_offset: usize,
    pub initial_model_keyframe_offset: usize,
    pub model_keyframe_count_offset: usize,
    pub model_keyframes_offset: usize,
    pub model_keyframes_end_offset: usize,
    pub bone_states_offset: usize,
    pub morph_states_offset: usize,
    pub constraint_states_offset: usize,
    pub outside_parent_states_offset: usize,
}

#[derive(Clone, Copy)]
pub struct PmmDocumentModelSummary {
    pub document_model_index: u8,
    pub offset: usize,
    pub offset_end: usize,
    pub path_offset: usize,
    pub bone_count: usize,
    pub morph_count: usize,
    pub constraint_bone_count: usize,
    pub outside_parent_subject_bone_count: usize,
    pub draw_order_index: u8,
    pub transform_order_index: u8,
    pub selected_bone_index: i32,
    pub selected_morph_indices: [i32; 4],
    pub vertical_scroll: i32,
    pub sections: PmmDocumentModelSections,
    pub initial_bone_keyframes: usize,
    pub bone_keyframes: usize,
    pub initial_morph_keyframes: usize,
    pub morph_keyframes: usize,
    pub initial_model_keyframes: usize,
    pub model_keyframes: usize,
    pub last_frame_index: i32,
    pub visible: bool,
    pub blend_enabled: bool,
    pub edge_width: f32,
    pub edge_width_bits: u32,
    pub self_shadow_enabled: bool,
}

impl From<Model> for PmmDocumentModelSections {
    ghost from_gives = { λ m sections. sections ≡ sections_of m };

    #[tactic(auto, unfolding(crate::specs::Summary::sections_of))]
    fn from(m: Model) -> PmmDocumentModelSections {
        let keyframes = m.keyframes;
        PmmDocumentModelSections {
            initial_bone_keyframes_offset: keyframes.bones.initial_offset,
            bone_keyframe_count_offset: keyframes.bones.count_offset,
            bone_keyframes_offset: keyframes.bones.offset,
            bone_keyframes_end_offset: keyframes.bones.end_offset,
            initial_morph_keyframes_offset: keyframes.morphs.initial_offset,
            morph_keyframe_count_offset: keyframes.morphs.count_offset,
            morph_keyframes_offset: keyframes.morphs.offset,
            morph_keyframes_end_offset: keyframes.morphs.end_offset,
            initial_model_keyframe_offset: keyframes.models.initial_offset,
            model_keyframe_count_offset: keyframes.models.count_offset,
            model_keyframes_offset: keyframes.models.offset,
            model_keyframes_end_offset: keyframes.models.end_offset,
            bone_states_offset: m.states.bones,
            morph_states_offset: m.states.morphs,
            constraint_states_offset: m.states.constraints,
            outside_parent_states_offset: m.states.parents,
        }
    }
}

fn signed_all(bits: [u32; 4]) -> [i32; 4]
    ensures { result ≡ map signed bits }
{
    bits.map(u32::cast_signed)
}

#[tactic(auto, unfolding(crate::specs::Summary::summary_of))]
fn summary(offset: usize, m: Model, offset_end: usize) -> PmmDocumentModelSummary
    ensures { result ≡ summary_of offset m offset_end }
{
    let front = m.front;
    let counts = front.counts;
    let bone_count = counts.bones.count as usize;
    let morph_count = counts.morphs.count as usize;
    PmmDocumentModelSummary {
        document_model_index: front.opening.document_model_index,
        offset,
        offset_end,
        path_offset: front.opening.path_offset,
        bone_count,
        morph_count,
        constraint_bone_count: counts.constraints as usize,
        outside_parent_subject_bone_count: counts.parents as usize,
        draw_order_index: front.view.draw_order_index,
        transform_order_index: m.ending.transform_order_index,
        selected_bone_index: front.view.selected_bone.cast_signed(),
        selected_morph_indices: signed_all(front.view.selected_morphs),
        vertical_scroll: front.scroll.vertical_scroll.cast_signed(),
        sections: PmmDocumentModelSections::from(m),
        initial_bone_keyframes: bone_count,
        bone_keyframes: m.keyframes.bones.count as usize,
        initial_morph_keyframes: morph_count,
        morph_keyframes: m.keyframes.morphs.count as usize,
        initial_model_keyframes: 1,
        model_keyframes: m.keyframes.models.count as usize,
        last_frame_index: front.scroll.last_frame.cast_signed(),
        visible: front.view.visible,
        blend_enabled: m.ending.blend_enabled,
        edge_width: num::f32_from_bits_with_nan(m.ending.edge_width),
        edge_width_bits: m.ending.edge_width,
        self_shadow_enabled: m.ending.self_shadow_enabled,
    }
}

#[tactic(auto, unfolding(crate::specs::Summary::model_summary))]
pub fn read_document_model_summary(
    section: &[u8],
    start: usize,
) -> Result<PmmDocumentModelSummary, Refusal>
    ensures { answer_read result ≡ model_summary edition1 section.now start }
{
    let (m, end) = model::read_model(section, start)?;
    Ok(summary(start, m, end))
}
