// A morph record and its summary.
ghost use Rattle.std.specs.Prelude.{◌≡◌};
ghost use Rattle.binary.specs.Answers.{read};
ghost use Rattle.records.specs.Keyframes.{morph_bits, morph_of};

use crate::base;
use crate::base::{BaseBits, PmmDocumentBaseKeyframeSummary, Span};
use binary::numbers;
use binary::refusal::Read;
use std::num;

#[derive(Clone, Copy)]
pub struct MorphBits {
    pub base: BaseBits,
    pub weight: u32,
    pub selected: bool,
}

// Rattle's f32 has one NaN; the bits are the file's.
#[derive(Clone, Copy)]
pub struct PmmDocumentMorphKeyframeSummary {
    pub base: PmmDocumentBaseKeyframeSummary,
    pub weight: f32,
    pub weight_bits: u32,
    pub selected: bool,
    pub span: Span,
}

#[tactic(auto, unfolding(crate::specs::Keyframes::morph_bits))]
pub fn read_morph(s: &[u8], at: usize, include_index: bool) -> Read<MorphBits>
    ensures { read result ≡ morph_bits include_index s.now at }
{
    let (base, at) = base::read_base(s, at, include_index)?;
    let (weight, at) = numbers::read_u32_le(s, at)?;
    let (selected, next) = numbers::read_bool(s, at)?;
    let bits = MorphBits {
        base,
        weight,
        selected,
    };
    Ok((bits, next))
}

impl MorphBits {
    // The summary of a record that stands from `offset` to `end`.
    #[tactic(auto, unfolding(crate::specs::Keyframes::morph_of))]
    pub fn summary(self, offset: usize, end: usize) -> PmmDocumentMorphKeyframeSummary
        ensures { result ≡ morph_of self offset end }
    {
        PmmDocumentMorphKeyframeSummary {
            base: self.base.summary(),
            weight: num::f32_from_bits_with_nan(self.weight),
            weight_bits: self.weight,
            selected: self.selected,
            span: Span::new(offset, self.base.payload_offset, end),
        }
    }
}
