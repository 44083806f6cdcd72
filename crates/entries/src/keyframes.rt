// Bone, morph and model records: initial ones, or additional ones, which include an index.
ghost use Rattle.std.specs.Prelude.{◌≡◌};
ghost use Rattle.binary.specs.Answers.{read};
ghost use Rattle.section.specs.Limits.{edition1};
ghost use Rattle.entries.specs.Keyframes.{model_record, bone_keyframe, morph_keyframe, model_keyframe};

use crate::keyframe::Keyframe;
use crate::lists;
use crate::lists::SectionList;
use binary::refusal::{Read, Refusal};
use records::base::Span;
use records::bone::PmmDocumentBoneKeyframeSummary;
use records::model::{ModelBits, PmmDocumentModelKeyframeSummary};
use records::morph::PmmDocumentMorphKeyframeSummary;
use records::{bone, model, morph};
use section::names::Counts;

impl Keyframe for PmmDocumentBoneKeyframeSummary {
    ghost answer_of = { bone_keyframe };

    ghost span_of = { λ b. b.span };

    #[tactic(auto, unfolding(layout::specs::Walk::entry_of))]
    fn read(
        section: &[u8],
        start: usize,
        include_index: bool,
        number: usize,
    ) -> Result<PmmDocumentBoneKeyframeSummary, Refusal> {
        let list = if include_index {
            SectionList::Bones
        } else {
            SectionList::InitialBones
        };
        let (_, at) = lists::locate(section, start, list, number)?;
        let (bits, end) = bone::read_bone(section, at, include_index)?;
        Ok(bits.summary(at, end))
    }

    fn span(self) -> Span {
        self.span
    }
}

impl Keyframe for PmmDocumentMorphKeyframeSummary {
    ghost answer_of = { morph_keyframe };

    ghost span_of = { λ m. m.span };

    #[tactic(auto, unfolding(layout::specs::Walk::entry_of))]
    fn read(
        section: &[u8],
        start: usize,
        include_index: bool,
        number: usize,
    ) -> Result<PmmDocumentMorphKeyframeSummary, Refusal> {
        let list = if include_index {
            SectionList::Morphs
        } else {
            SectionList::InitialMorphs
        };
        let (_, at) = lists::locate(section, start, list, number)?;
        let (bits, end) = morph::read_morph(section, at, include_index)?;
        Ok(bits.summary(at, end))
    }

    fn span(self) -> Span {
        self.span
    }
}

// A model record, where it stands, and what its section counts.
#[derive(Clone, Copy)]
pub struct ModelRecord {
    pub counts: Counts,
    pub at: usize,
    pub bits: ModelBits,
}

#[tactic(auto, unfolding(crate::specs::Keyframes::model_record))]
pub(crate) fn read_model_record(
    s: &[u8],
    start: usize,
    include_index: bool,
    number: usize,
) -> Read<ModelRecord>
    ensures { read result ≡ model_record edition1 include_index number s.now start }
{
    let list = if include_index {
        SectionList::Models
    } else {
        SectionList::InitialModels
    };
    let (m, at) = lists::locate(s, start, list, number)?;
    let counts = m.front.counts;
    let (bits, end) = model::read_model_record(
        s,
        at,
        include_index,
        counts.constraints,
        counts.parents,
    )?;
    Ok((ModelRecord { counts, at, bits }, end))
}

impl Keyframe for PmmDocumentModelKeyframeSummary {
    ghost answer_of = { model_keyframe };

    ghost span_of = { λ m. m.span };

    #[tactic(auto, using(crate::proofs::ModelRecords::model_keyframe_is))]
    fn read(
        section: &[u8],
        start: usize,
        include_index: bool,
        number: usize,
    ) -> Result<PmmDocumentModelKeyframeSummary, Refusal> {
        let (record, end) = read_model_record(section, start, include_index, number)?;
        let counts = record.counts;
        Ok(
            record
                .bits
                .summary(counts.constraints, counts.parents, record.at, end),
        )
    }

    fn span(self) -> Span {
        self.span
    }
}
