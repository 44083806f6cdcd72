// A bone record's interpolation, as an array beside its summary or as a part of the section.
ghost use Rattle.std.specs.Prelude.{◌≡◌, take};
ghost use Rattle.section.specs.Limits.{edition1};
ghost use Rattle.entries.specs.Interpolation.{curves_or};
ghost use Rattle.entries.specs.Keyframes.{bone_keyframe};
ghost use Rattle.entries.specs.Parts.{payload_or};

use crate::keyframe;
use crate::keyframe::Keyframe;
use records::bone::PmmDocumentBoneKeyframeSummary;
use records::curves;

// The four curves as they stand; all 0 where the record's own call with the same inputs refuses.
#[tactic(auto, using(crate::proofs::Curved::bone_interpolation))]
pub fn bone_interpolation(
    section: &[u8],
    start: usize,
    include_index: bool,
    number: usize,
) -> [[u8; 4]; 4]
    ensures { result ≡ curves_or (bone_keyframe edition1 include_index number section.now start) section.now }
{
    match PmmDocumentBoneKeyframeSummary::read(section, start, include_index, number) {
        Ok(b) => curves::curves_at(section, b.span.payload_offset),
        Err(_) => curves::no_curves(),
    }
}

// The bytes of the curves, with which the payload begins; none where the record's own call with the same inputs refuses.
pub fn bone_curves(section: &[u8], start: usize, include_index: bool, number: usize) -> &[u8]
    ensures { result.now ≡ take 16 (payload_or (λ b. b.span) (bone_keyframe edition1 include_index number section.now start) section.now) }
{
    let payload = keyframe::payload::<PmmDocumentBoneKeyframeSummary>(
        section,
        start,
        include_index,
        number,
    );
    &payload[..payload.len().min(16)]
}
