// Camera records by number.
ghost use Rattle.std.specs.Prelude.{◌≡◌};
ghost use Rattle.binary.specs.Answers.{read};
ghost use Rattle.section.specs.Limits.{edition1};
ghost use Rattle.camera_light.specs.Camera.{view_bits, lens_bits, camera_bits, offsets_of, camera_of, camera_keyframe, curves_part};

use crate::track::Kind;
use crate::vector::VECTOR_WIDTH;
use crate::{track, vector};
use binary::refusal::{Read, Refusal};
use binary::{groups, numbers};
use entries::keyframe::Keyframe;
use entries::parts;
use records::base;
use records::base::{BaseBits, PmmDocumentBaseKeyframeSummary, Span};
use std::num;

const INTERPOLATION_WIDTH: usize = 24;

#[derive(Clone, Copy)]
pub struct ViewBits {
    pub distance: u32,
    pub look_at: [u32; 3],
    pub angle: [u32; 3],
    pub parent_model: u32,
    pub parent_bone: u32,
}

// The perspective view is on when its byte is 0.
#[derive(Clone, Copy)]
pub struct LensBits {
    pub perspective_byte: bool,
    pub fov: u32,
    pub selected: bool,
}

#[derive(Clone, Copy)]
pub struct CameraBits {
    pub base: BaseBits,
    pub view: ViewBits,
    pub lens: LensBits,
}

// Where each field stands.
#[derive(Clone, Copy)]
pub struct CameraOffsets {
    pub distance_offset: usize,
    pub look_at_offset: usize,
    pub look_at_byte_length: usize,
    pub angle_offset: usize,
    pub angle_byte_length: usize,
    pub parent_model_index_offset: usize,
    pub parent_model_bone_index_offset: usize,
    pub interpolation_offset: usize,
    pub interpolation_byte_length: usize,
    pub perspective_view_offset: usize,
    pub fov_offset: usize,
    pub selected_offset: usize,
}

// The interpolation's bytes are handed back as a part. Rattle's f32 has one NaN; the bits are the file's.
#[derive(Clone, Copy)]
pub struct CameraKeyframeSummary {
    pub base: PmmDocumentBaseKeyframeSummary,
    pub distance: f32,
    pub distance_bits: u32,
    pub look_at: [f32; 3],
    pub look_at_bits: [u32; 3],
    pub angle: [f32; 3],
    pub angle_bits: [u32; 3],
    pub parent_model_index: i32,
    pub parent_model_bone_index: i32,
    pub perspective_view: bool,
    pub fov: i32,
    pub selected: bool,
    pub offsets: CameraOffsets,
    pub span: Span,
}

#[tactic(auto, unfolding(crate::specs::Camera::view_bits))]
fn read_view(s: &[u8], at: usize) -> Read<ViewBits>
    ensures { read result ≡ view_bits s.now at }
{
    let (distance, at) = numbers::read_u32_le(s, at)?;
    let (look_at, at) = groups::read_u32s_le(s, at)?;
    let (angle, at) = groups::read_u32s_le(s, at)?;
    let (parent_model, at) = numbers::read_u32_le(s, at)?;
    let (parent_bone, next) = numbers::read_u32_le(s, at)?;
    let view = ViewBits {
        distance,
        look_at,
        angle,
        parent_model,
        parent_bone,
    };
    Ok((view, next))
}

#[tactic(auto, unfolding(crate::specs::Camera::lens_bits))]
fn read_lens(s: &[u8], at: usize) -> Read<LensBits>
    ensures { read result ≡ lens_bits s.now at }
{
    let at = numbers::skip(s, at, INTERPOLATION_WIDTH)?;
    let (perspective_byte, at) = numbers::read_bool(s, at)?;
    let (fov, at) = numbers::read_u32_le(s, at)?;
    let (selected, next) = numbers::read_bool(s, at)?;
    let lens = LensBits {
        perspective_byte,
        fov,
        selected,
    };
    Ok((lens, next))
}

#[tactic(auto, unfolding(crate::specs::Camera::camera_bits))]
fn read_camera(s: &[u8], at: usize, include_index: bool) -> Read<CameraBits>
    ensures { read result ≡ camera_bits include_index s.now at }
{
    let (base, at) = base::read_base(s, at, include_index)?;
    let (view, at) = read_view(s, at)?;
    let (lens, next) = read_lens(s, at)?;
    Ok((CameraBits { base, view, lens }, next))
}

impl CameraOffsets {
    // Of a record that ends at `end`.
    #[tactic(auto, unfolding(crate::specs::Camera::offsets_of, layout::specs::Records::size))]
    fn new(end: usize) -> CameraOffsets
        ensures { result ≡ offsets_of end }
    {
        CameraOffsets {
            distance_offset: end.saturating_sub(66),
            look_at_offset: end.saturating_sub(62),
            look_at_byte_length: VECTOR_WIDTH,
            angle_offset: end.saturating_sub(50),
            angle_byte_length: VECTOR_WIDTH,
            parent_model_index_offset: end.saturating_sub(38),
            parent_model_bone_index_offset: end.saturating_sub(34),
            interpolation_offset: end.saturating_sub(30),
            interpolation_byte_length: INTERPOLATION_WIDTH,
            perspective_view_offset: end.saturating_sub(6),
            fov_offset: end.saturating_sub(5),
            selected_offset: end.saturating_sub(1),
        }
    }
}

impl CameraBits {
    #[tactic(auto, unfolding(crate::specs::Camera::camera_of))]
    fn summary(self, offset: usize, end: usize) -> CameraKeyframeSummary
        ensures { result ≡ camera_of self offset end }
    {
        let view = self.view;
        let lens = self.lens;
        let look_at_bits = view.look_at;
        let angle_bits = view.angle;
        CameraKeyframeSummary {
            base: self.base.summary(),
            distance: num::f32_from_bits_with_nan(view.distance),
            distance_bits: view.distance,
            look_at: vector::vector_of(look_at_bits),
            look_at_bits,
            angle: vector::vector_of(angle_bits),
            angle_bits,
            parent_model_index: view.parent_model.cast_signed(),
            parent_model_bone_index: view.parent_bone.cast_signed(),
            perspective_view: !lens.perspective_byte,
            fov: lens.fov.cast_signed(),
            selected: lens.selected,
            offsets: CameraOffsets::new(end),
            span: Span::new(offset, self.base.payload_offset, end),
        }
    }
}

impl Keyframe for CameraKeyframeSummary {
    ghost answer_of = { camera_keyframe };

    ghost span_of = { λ c. c.span };

    #[tactic(auto, unfolding(layout::specs::Walk::entry_of))]
    fn read(
        section: &[u8],
        start: usize,
        include_index: bool,
        number: usize,
    ) -> Result<CameraKeyframeSummary, Refusal> {
        let (_, at) = track::locate(section, start, Kind::Camera, include_index, number)?;
        let (bits, end) = read_camera(section, at, include_index)?;
        Ok(bits.summary(at, end))
    }

    fn span(self) -> Span {
        self.span
    }
}

// The interpolation's bytes; empty where the record's own call with the same inputs refuses.
pub fn camera_interpolation(
    section: &[u8],
    start: usize,
    include_index: bool,
    number: usize,
) -> &[u8]
    ensures { result.now ≡ curves_part (camera_keyframe edition1 include_index number section.now start) section.now }
{
    match CameraKeyframeSummary::read(section, start, include_index, number) {
        Ok(c) => parts::part(section, c.offsets.interpolation_offset, INTERPOLATION_WIDTH),
        Err(_) => &[],
    }
}
