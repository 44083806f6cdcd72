// Records that are answered by number, whatever their kind.
ghost use Rattle.std.specs.Prelude.{◌≡◌, ℕ, Bool, List};
ghost use Rattle.layout.specs.Walk.{Answer};
ghost use Rattle.binary.specs.Answers.{answer_read};
ghost use Rattle.section.specs.declared.limits.Limits.{Limits};
ghost use Rattle.section.specs.Limits.{edition1};
ghost use Rattle.records.specs.declared.base.Span.{Span};
ghost use Rattle.entries.specs.Parts.{payload_or};

use crate::parts;
use binary::refusal::Refusal;
use records::base::Span;

// Each kind's impl is an entry found, its bits read, its summary made: three calls of its own. A provided `read` over these three would
// make members of them in each impl, which is longer.
pub trait Keyframe: Copy {
    // What document 01 answers of a record of this kind, by its number in a section.
    ghost answer_of: { Limits → Bool → ℕ → List ℕ → ℕ → Answer Self };

    ghost span_of: { Self → Span };

    // Record `number`: an additional one, which includes an index, or an initial one. The four stand beside one another as in the calls for
    // C, which hand them on; a struct would be made there to be taken apart here.
    fn read(
        section: &[u8],
        start: usize,
        include_index: bool,
        number: usize,
    ) -> Result<Self, Refusal>
        ensures { answer_read result ≡ answer_of edition1 include_index number section.now start };

    // Where the record and its payload stand.
    fn span(self) -> Span
        ensures { result ≡ span_of self };
}

// The payload of a record, as the part of the section that holds it: empty where the record's own call with the same inputs refuses. The
// same two arms stand in texts and in camera_light, camera: what is read, and which part of it is answered, differ.
pub fn payload<K: Keyframe>(
    section: &[u8],
    start: usize,
    include_index: bool,
    number: usize,
) -> &[u8]
    ensures { result.now ≡ payload_or K.span_of (K.answer_of edition1 include_index number section.now start) section.now }
{
    match K::read(section, start, include_index, number) {
        Ok(keyframe) => {
            let span = keyframe.span();
            parts::part(section, span.payload_offset, span.payload_byte_length)
        }
        Err(_) => &[],
    }
}
