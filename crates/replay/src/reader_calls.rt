// The readers' calls by the numbers that a file has for them, their places in oracle/calls/src/call.rs. Here alone a number becomes a
// call; an enum between them would name each of the 31 twice more. What the calls for C hand on is made here: an answer as numbers, or
// a part.
use crate::reader_check::Check;
use answer_numbers::answers::Numbers;
use camera_light::camera::CameraKeyframeSummary;
use camera_light::light::LightKeyframeSummary;
use camera_light::track::Kind;
use camera_light::{camera, track};
use entries::keyframe::Keyframe;
use entries::texts::Text;
use entries::{interpolation, keyframe, model_lists, states, texts};
use records::bone::PmmDocumentBoneKeyframeSummary;
use records::model::PmmDocumentModelKeyframeSummary;
use records::morph::PmmDocumentMorphKeyframeSummary;
use section::summary;
use vectors::fields::Fields;
use vectors::file::Section;
use vectors::tally::Outcome;

fn record<K: Keyframe + Numbers>(
    section: Section<'_>,
    check: Check,
    checks: &mut Fields<'_>,
) -> Outcome {
    let answer = K::read(
        section.bytes,
        section.start,
        check.include_index,
        check.number,
    );
    check.numbers(checks, answer)
}

fn payload<K: Keyframe>(section: Section<'_>, check: Check, checks: &mut Fields<'_>) -> Outcome {
    let part = keyframe::payload::<K>(
        section.bytes,
        section.start,
        check.include_index,
        check.number,
    );
    check.bytes(checks, part)
}

fn span(section: Section<'_>, check: Check, checks: &mut Fields<'_>, text: Text) -> Outcome {
    check.numbers(checks, texts::text_span(section.bytes, section.start, text))
}

fn name(section: Section<'_>, check: Check, checks: &mut Fields<'_>, text: Text) -> Outcome {
    check.bytes(checks, texts::text_part(section.bytes, section.start, text))
}

// Makes the check that comes next.
pub fn make(section: Section<'_>, checks: &mut Fields<'_>) -> Outcome {
    let Section { bytes, start } = section;
    let call = checks.u8();
    let check = Check::read(checks);
    let Check {
        include_index,
        number,
        entry,
        ..
    } = check;
    match call {
        0 => check.numbers(checks, summary::read_document_model_summary(bytes, start)),
        1 => record::<PmmDocumentBoneKeyframeSummary>(section, check, checks),
        2 => record::<PmmDocumentMorphKeyframeSummary>(section, check, checks),
        3 => record::<PmmDocumentModelKeyframeSummary>(section, check, checks),
        4 => check.numbers(
            checks,
            model_lists::model_keyframe_constraint_state(
                bytes,
                start,
                include_index,
                number,
                entry,
            ),
        ),
        5 => check.numbers(
            checks,
            model_lists::model_keyframe_outside_parent(bytes, start, include_index, number, entry),
        ),
        6 => check.numbers(checks, states::bone_state(bytes, start, number)),
        7 => check.numbers(checks, states::morph_state(bytes, start, number)),
        8 => check.numbers(checks, states::constraint_state(bytes, start, number)),
        9 => check.numbers(checks, states::outside_parent_state(bytes, start, number)),
        10 => span(section, check, checks, Text::Name),
        11 => span(section, check, checks, Text::EnglishName),
        12 => span(section, check, checks, Text::Path),
        13 => span(section, check, checks, Text::Bone(number)),
        14 => span(section, check, checks, Text::Morph(number)),
        15 => check.numbers(
            checks,
            track::read_document_track_summary(bytes, start, Kind::Camera),
        ),
        16 => check.numbers(
            checks,
            track::read_document_track_summary(bytes, start, Kind::Light),
        ),
        17 => record::<CameraKeyframeSummary>(section, check, checks),
        18 => record::<LightKeyframeSummary>(section, check, checks),
        19 => name(section, check, checks, Text::Name),
        20 => name(section, check, checks, Text::EnglishName),
        21 => name(section, check, checks, Text::Path),
        22 => name(section, check, checks, Text::Bone(number)),
        23 => name(section, check, checks, Text::Morph(number)),
        24 => payload::<PmmDocumentBoneKeyframeSummary>(section, check, checks),
        25 => payload::<PmmDocumentMorphKeyframeSummary>(section, check, checks),
        26 => payload::<PmmDocumentModelKeyframeSummary>(section, check, checks),
        27 => payload::<CameraKeyframeSummary>(section, check, checks),
        28 => payload::<LightKeyframeSummary>(section, check, checks),
        29 => check.bytes(
            checks,
            camera::camera_interpolation(bytes, start, include_index, number),
        ),
        _ => check.bytes(
            checks,
            interpolation::bone_curves(bytes, start, include_index, number),
        ),
    }
}
