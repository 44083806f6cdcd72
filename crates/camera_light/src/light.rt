// Light records by number.
ghost use Rattle.std.specs.Prelude.{◌≡◌};
ghost use Rattle.binary.specs.Answers.{read};
ghost use Rattle.camera_light.specs.Light.{light_bits, light_of, light_keyframe};

use crate::track::Kind;
use crate::vector::VECTOR_WIDTH;
use crate::{track, vector};
use binary::refusal::{Read, Refusal};
use binary::{groups, numbers};
use entries::keyframe::Keyframe;
use records::base;
use records::base::{BaseBits, PmmDocumentBaseKeyframeSummary, Span};

#[derive(Clone, Copy)]
pub struct LightBits {
    pub base: BaseBits,
    pub color: [u32; 3],
    pub direction: [u32; 3],
    pub selected: bool,
}

// Rattle's f32 has one NaN; the bits are the file's.
#[derive(Clone, Copy)]
pub struct LightKeyframeSummary {
    pub base: PmmDocumentBaseKeyframeSummary,
    pub color: [f32; 3],
    pub color_bits: [u32; 3],
    pub direction: [f32; 3],
    pub direction_bits: [u32; 3],
    pub selected: bool,
    pub color_offset: usize,
    pub color_byte_length: usize,
    pub direction_offset: usize,
    pub direction_byte_length: usize,
    pub selected_offset: usize,
    pub span: Span,
}

#[tactic(auto, unfolding(crate::specs::Light::light_bits))]
fn read_light(s: &[u8], at: usize, include_index: bool) -> Read<LightBits>
    ensures { read result ≡ light_bits include_index s.now at }
{
    let (base, at) = base::read_base(s, at, include_index)?;
    let (color, at) = groups::read_u32s_le(s, at)?;
    let (direction, at) = groups::read_u32s_le(s, at)?;
    let (selected, next) = numbers::read_bool(s, at)?;
    let bits = LightBits {
        base,
        color,
        direction,
        selected,
    };
    Ok((bits, next))
}

impl LightBits {
    #[tactic(auto, unfolding(crate::specs::Light::light_of, layout::specs::Records::size))]
    fn summary(self, offset: usize, end: usize) -> LightKeyframeSummary
        ensures { result ≡ light_of self offset end }
    {
        let color_bits = self.color;
        let direction_bits = self.direction;
        LightKeyframeSummary {
            base: self.base.summary(),
            color: vector::vector_of(color_bits),
            color_bits,
            direction: vector::vector_of(direction_bits),
            direction_bits,
            selected: self.selected,
            color_offset: end.saturating_sub(25),
            color_byte_length: VECTOR_WIDTH,
            direction_offset: end.saturating_sub(13),
            direction_byte_length: VECTOR_WIDTH,
            selected_offset: end.saturating_sub(1),
            span: Span::new(offset, self.base.payload_offset, end),
        }
    }
}

impl Keyframe for LightKeyframeSummary {
    ghost answer_of = { light_keyframe };

    ghost span_of = { λ l. l.span };

    #[tactic(auto, unfolding(layout::specs::Walk::entry_of))]
    fn read(
        section: &[u8],
        start: usize,
        include_index: bool,
        number: usize,
    ) -> Result<LightKeyframeSummary, Refusal> {
        let (_, at) = track::locate(section, start, Kind::Light, include_index, number)?;
        let (bits, end) = read_light(section, at, include_index)?;
        Ok(bits.summary(at, end))
    }

    fn span(self) -> Span {
        self.span
    }
}
