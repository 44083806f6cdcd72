// Document 01, module 6: the strip of a clip is measured, and then written.
ghost use Rattle.std.specs.Prelude.{◌≡◌, ◌≤◌, length};
ghost use Rattle.writing.specs.Chains.{FineTracks};
ghost use Rattle.strip_call.specs.Bytes.{strip_bytes};

use chains::chain::Chains;
use keys::write;
use writing::tracks;

// The chains of both kinds of a section, whose keys meet nothing. No strip is longer than its section.
#[derive(Clone, Copy)]
pub struct Clip<'a> {
    pub bones: Chains<'a>,
    pub morphs: Chains<'a>,
    ghost fine_bones: { FineTracks bones },
    ghost fine_morphs: { FineTracks morphs },
    ghost one_section: { morphs.indexed.records.section.now ≡ bones.indexed.records.section.now },
    ghost short: { length (strip_bytes bones.indexed.records.section.now bones.indexed.records.block morphs.indexed.records.block) ≤ length bones.indexed.records.section.now },
}

impl<'a> Clip<'a> {
    ghost use Rattle.keys.specs.Placed.{Room, Wrote};
    ghost use Rattle.strip_call.specs.Clip.{TooLong, bytes_of};

    #[tactic(auto, using(crate::proofs::Pieces::measured))]
    fn length(&self) -> usize
        ensures { result ≡ length (bytes_of self.now) }
    {
        4 + tracks::tracks_length(&self.bones) + tracks::tracks_length(&self.morphs)
    }

    // The strip's length, if so many bytes are too few. Where they are as many as the section has, nothing is measured.
    pub fn too_long(&self, bytes: usize) -> Option<usize>
        ensures { TooLong (length (bytes_of self.now)) bytes result }
    {
        if self.bones.indexed.records.section.len() <= bytes {
            return None;
        }
        let length = self.length();
        if length <= bytes { None } else { Some(length) }
    }

    #[tactic(auto, using(crate::proofs::Pieces::pieces))]
    pub fn write(&self, output: &mut [u8]) -> usize
        requires { Room 0 (bytes_of self.now) output.old }
        ensures { Wrote 0 (bytes_of self.now) output.old result output.new }
    {
        let bones = self.bones.indexed.records.block;
        let morphs = self.morphs.indexed.records.block;
        write::write_count(output, 0, bones.initials.count);
        write::write_count(output, 2, morphs.initials.count);
        let behind = tracks::write_tracks(&self.bones, output, 4);
        tracks::write_tracks(&self.morphs, output, behind)
    }
}
