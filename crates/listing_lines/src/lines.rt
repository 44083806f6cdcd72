// The lines, each written at a place of a slice as far as it reaches.
ghost use Rattle.std.specs.Prelude.{◌≤◌, length};
ghost use Rattle.listing_lines.specs.Written.{Written};
ghost use Rattle.listing_lines.specs.Lines.{model_line, key_line, count_line, refused_line};

use crate::text::{write, write_spaced};

pub fn write_model(output: &mut [u8], at: usize, bones: usize, morphs: usize, end: usize) -> usize
    requires { at ≤ length output.old }
    ensures { Written at (model_line bones morphs end) output.old result output.new }
{
    let behind = write(output, at, b"model");
    let behind_bones = write_spaced(output, behind, bones);
    let behind_morphs = write_spaced(output, behind_bones, morphs);
    let behind_end = write_spaced(output, behind_morphs, end);
    write(output, behind_end, b"\n")
}

pub fn write_key(
    output: &mut [u8],
    at: usize,
    name: &[u8],
    track: usize,
    frame: usize,
    map: usize,
) -> usize
    requires { at ≤ length output.old }
    ensures { Written at (key_line name.now track frame map) output.old result output.new }
{
    let behind = write(output, at, name);
    let behind_track = write_spaced(output, behind, track);
    let behind_frame = write_spaced(output, behind_track, frame);
    let behind_map = write_spaced(output, behind_frame, map);
    write(output, behind_map, b"\n")
}

pub fn write_count(output: &mut [u8], at: usize, keys: usize, loose: usize) -> usize
    requires { at ≤ length output.old }
    ensures { Written at (count_line keys loose) output.old result output.new }
{
    let behind = write(output, at, b"keys");
    let behind_keys = write_spaced(output, behind, keys);
    let behind_word = write(output, behind_keys, b" loose");
    let behind_loose = write_spaced(output, behind_word, loose);
    write(output, behind_loose, b"\n")
}

pub fn write_refused(output: &mut [u8], number: usize) -> usize
    ensures { Written 0 (refused_line number) output.old result output.new }
{
    let behind = write(output, 0, b"refused");
    let behind_number = write_spaced(output, behind, number);
    write(output, behind_number, b"\n")
}
