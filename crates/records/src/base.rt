// What every keyframe begins with: its index, if it is an additional one, its frame and its links; and where it stands.
ghost use Rattle.std.specs.Prelude.{◌≡◌};
ghost use Rattle.binary.specs.Answers.{read};
ghost use Rattle.records.specs.Base.{index_bits, base_bits, base_of, span_of};

use binary::numbers;
use binary::refusal::Read;

// An initial record has no index. The payload follows the base.
#[derive(Clone, Copy)]
pub struct BaseBits {
    pub index: Option<u32>,
    pub frame: u32,
    pub previous: u32,
    pub next: u32,
    pub payload_offset: usize,
}

#[derive(Clone, Copy)]
pub struct PmmDocumentBaseKeyframeSummary {
    pub index: Option<i32>,
    pub frame_index: i32,
    pub previous_keyframe_index: i32,
    pub next_keyframe_index: i32,
}

// Where a record and its payload stand.
#[derive(Clone, Copy)]
pub struct Span {
    pub offset: usize,
    pub byte_length: usize,
    pub payload_offset: usize,
    pub payload_byte_length: usize,
}

fn read_index(s: &[u8], at: usize, include_index: bool) -> Read<Option<u32>>
    ensures { read result ≡ index_bits include_index s.now at }
{
    if !include_index {
        return Ok((None, at));
    }
    let (index, next) = numbers::read_u32_le(s, at)?;
    Ok((Some(index), next))
}

#[tactic(auto, unfolding(crate::specs::Base::base_bits))]
pub fn read_base(s: &[u8], at: usize, include_index: bool) -> Read<BaseBits>
    ensures { read result ≡ base_bits include_index s.now at }
{
    let (index, at) = read_index(s, at, include_index)?;
    let (frame, at) = numbers::read_u32_le(s, at)?;
    let (previous, at) = numbers::read_u32_le(s, at)?;
    let (next, payload_offset) = numbers::read_u32_le(s, at)?;
    let base = BaseBits {
        index,
        frame,
        previous,
        next,
        payload_offset,
    };
    Ok((base, payload_offset))
}

impl BaseBits {
    #[tactic(auto, unfolding(crate::specs::Base::base_of))]
    pub fn summary(self) -> PmmDocumentBaseKeyframeSummary
        ensures { result ≡ base_of self }
    {
        PmmDocumentBaseKeyframeSummary {
            index: self.index.map(u32::cast_signed),
            frame_index: self.frame.cast_signed(),
            previous_keyframe_index: self.previous.cast_signed(),
            next_keyframe_index: self.next.cast_signed(),
        }
    }
}

impl Span {
    // The record from `offset` to `end`, whose payload starts at `payload_offset`.
    #[tactic(auto, unfolding(crate::specs::Base::span_of))]
    pub fn new(offset: usize, payload_offset: usize, end: usize) -> Span
        ensures { result ≡ span_of offset payload_offset end }
    {
        Span {
            offset,
            byte_length: end.saturating_sub(offset),
            payload_offset,
            payload_byte_length: end.saturating_sub(payload_offset),
        }
    }
}
