// The cases of strips read back: those of refusals in order, one strip without tracks, and strips of the strip call. Each line has the
// strip, the call, and the numbers that it answered.

use crate::sections::bones;
use blocks::track::{BoneIndex, MorphIndex, TrackIndex};
use files::hex::Hex;
use std::{fmt, io};
use strip_call::call;
use strip_reader::counts::StripCounts;
use strip_reader::refusal::ReaderRefusal;
use strip_reader::{all_keys, counts, key, track};

// Each behind a space.
#[derive(Clone, Copy)]
struct Numbers<'a>(&'a [u32]);

impl fmt::Display for Numbers<'_> {
    fn fmt<W: fmt::Write>(&self, f: &mut fmt::Formatter<W>) -> fmt::Result {
        for number in self.0 {
            write!(f, " {number}")?;
        }
        Ok(())
    }
}

fn say(rt: &impl Print, strip: &[u8], what: &str, numbers: &[u32]) -> io::Result<()> {
    println!(rt; "{}, {what}:{}", Hex(strip), Numbers(numbers))
}

fn say_refused(rt: &impl Print, strip: &[u8], what: &str, why: ReaderRefusal) -> io::Result<()> {
    println!(rt; "{}, {what}: refused {why}", Hex(strip))
}

fn say_counts(rt: &impl Print, strip: &[u8]) -> io::Result<()> {
    match counts::counts(strip) {
        Ok(StripCounts { bones, morphs }) => say(rt, strip, "counts", &[bones, morphs]),
        Err(why) => say_refused(rt, strip, "counts", why),
    }
}

fn say_key_count(rt: &impl Print, strip: &[u8], what: &str, track: TrackIndex) -> io::Result<()> {
    match track::key_count(strip, track) {
        Ok(keys) => say(rt, strip, what, &[keys]),
        Err(why) => say_refused(rt, strip, what, why),
    }
}

fn say_key(
    rt: &impl Print,
    strip: &[u8],
    what: &str,
    track: TrackIndex,
    place: usize,
) -> io::Result<()> {
    match key::key(strip, track, place) {
        Ok(key) => say(rt, strip, what, &key.numbers()),
        Err(why) => say_refused(rt, strip, what, why),
    }
}

// How many keys there are, and the row of the first one; every place is 7 before.
fn say_keys(rt: &impl Print, strip: &[u8]) -> io::Result<()> {
    let mut row = [7; 16];
    match all_keys::keys(strip, 0, &mut row) {
        Ok(keys) => println!(rt; "{}, keys: {keys}, row{}", Hex(strip), Numbers(&row)),
        Err(why) => say_refused(rt, strip, "keys", why),
    }
}

const BONE: TrackIndex = TrackIndex::Bone(BoneIndex(0));

fn run_case(rt: &impl Print, strip: &[u8]) -> io::Result<()> {
    say_counts(rt, strip)?;
    say_key_count(rt, strip, "key count of bone 0", BONE)?;
    say_key(rt, strip, "key 0 of bone 0", BONE, 0)?;
    say_keys(rt, strip)
}

fn orders(rt: &impl Print) -> io::Result<()> {
    run_case(rt, &[1, 0, 0, 0, 0, 0, 119])?;
    run_case(rt, &[1, 0, 0, 0, 0])?;
    run_case(rt, &[0, 0, 1, 0, 1, 0, 0, 0, 0, 128, 2])?;
    run_case(rt, &[0, 0, 1, 0, 1, 0, 0, 0, 0, 128])?;
    let mut twice = [0, 0, 1, 0, 2, 0, 5, 0, 0, 0, 0, 5, 0, 0, 0, 0];
    run_case(rt, &twice)?;
    run_case(rt, &twice[..15])?;
    twice[15] = 2;
    run_case(rt, &twice)?;
    run_case(rt, &[0, 0, 1, 0, 255, 255, 0, 0, 0, 0, 2])
}

// What is not there in a strip of one bone with one key.
fn absent(rt: &impl Print, strip: &[u8]) -> io::Result<()> {
    let other = TrackIndex::Bone(BoneIndex(1));
    let morph = TrackIndex::Morph(MorphIndex(0));
    say_key_count(rt, strip, "key count of bone 1", other)?;
    say_key_count(rt, strip, "key count of morph 0", morph)?;
    say_key(rt, strip, "key 1 of bone 0", BONE, 1)?;
    say_key(rt, strip, "key 0 of morph 0", morph, 0)
}

// The strip of one bone, turned by this orientation's x.
fn build(x: f32, w: f32, strip: &mut [u8]) {
    let _ = call::strip(&bones::turned(x, 0.0, w), 0, &mut [], &mut [], strip);
}

pub fn run(rt: &impl Print) -> io::Result<()> {
    orders(rt)?;
    run_case(rt, &[0; 4])?;
    let mut plain = [0; 11];
    build(0.0, 1.0, &mut plain);
    run_case(rt, &plain)?;
    absent(rt, &plain)?;
    let mut turned = [0; 27];
    build(1.0 / 2048.0, 0.0, &mut turned);
    run_case(rt, &turned)
}
