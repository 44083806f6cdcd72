// Shows a model section: its counts and offsets, its name, English name and path, every bone's and morph's name, and the payload of
// every record, bytes in hexadecimal. The section is the file `section`, from its fourth byte on.
#![tactic(auto)]

use entries::keyframe::payload;
use entries::texts;
use entries::texts::Text;
use files::hex::Hex;
use records::bone::PmmDocumentBoneKeyframeSummary as Bone;
use records::model::PmmDocumentModelKeyframeSummary as Model;
use records::morph::PmmDocumentMorphKeyframeSummary as Morph;
use section::summary;
use section::summary::PmmDocumentModelSummary;
use std::{fmt, io};

// Where the section starts in its file.
const START: usize = 3;

// The lists that are shown: names and records.
#[derive(Clone, Copy)]
enum Shown {
    BoneNames,
    MorphNames,
    InitialBones,
    Bones,
    InitialMorphs,
    Morphs,
    InitialModels,
    Models,
}

impl Shown {
    fn part(self, section: &[u8], number: usize) -> &[u8] {
        match self {
            Shown::BoneNames => texts::text_part(section, START, Text::Bone(number)),
            Shown::MorphNames => texts::text_part(section, START, Text::Morph(number)),
            Shown::InitialBones => payload::<Bone>(section, START, false, number),
            Shown::Bones => payload::<Bone>(section, START, true, number),
            Shown::InitialMorphs => payload::<Morph>(section, START, false, number),
            Shown::Morphs => payload::<Morph>(section, START, true, number),
            Shown::InitialModels => payload::<Model>(section, START, false, number),
            Shown::Models => payload::<Model>(section, START, true, number),
        }
    }
}

// Every entry of a list, one a line.
fn show_list(
    rt: &impl Print,
    section: &[u8],
    what: &str,
    list: Shown,
    count: usize,
) -> io::Result<()> {
    for number in 0..count {
        println!(rt; "{what} {number} {}", Hex(list.part(section, number)))?;
    }
    Ok(())
}

fn show_text(rt: &impl Print, section: &[u8], what: &str, text: Text) -> io::Result<()> {
    println!(rt; "{what} {}", Hex(texts::text_part(section, START, text)))
}

fn show(rt: &impl Print, section: &[u8], m: PmmDocumentModelSummary) -> io::Result<()> {
    println!(rt;
        "bones {} morphs {} constraints {} outside parents {} end {}",
        m.bone_count,
        m.morph_count,
        m.constraint_bone_count,
        m.outside_parent_subject_bone_count,
        m.offset_end
    )?;
    show_text(rt, section, "name", Text::Name)?;
    show_text(rt, section, "english name", Text::EnglishName)?;
    show_text(rt, section, "path", Text::Path)?;
    for (what, list, count) in [
        ("bone", Shown::BoneNames, m.bone_count),
        ("morph", Shown::MorphNames, m.morph_count),
        (
            "initial bone record",
            Shown::InitialBones,
            m.initial_bone_keyframes,
        ),
        ("bone record", Shown::Bones, m.bone_keyframes),
        (
            "initial morph record",
            Shown::InitialMorphs,
            m.initial_morph_keyframes,
        ),
        ("morph record", Shown::Morphs, m.morph_keyframes),
        (
            "initial model record",
            Shown::InitialModels,
            m.initial_model_keyframes,
        ),
        ("model record", Shown::Models, m.model_keyframes),
    ] {
        show_list(rt, section, what, list, count)?;
    }
    Ok(())
}

fn main(rt: HostRuntime) -> io::Result<()> {
    let mut space = [0; 65536];
    let n = files::load(&rt, "section", &mut space)?;
    let section = &space[..n];
    match summary::read_document_model_summary(section, START) {
        Ok(m) => show(&rt, section, m),
        Err(why) => println!(rt; "refused {why}"),
    }
}
