// Strips read back, for C: 0 is returned and the answer's numbers are written, or a refusal's number is returned. No refusal has a value.
ghost use Rattle.std.specs.Prelude.{◌≡◌};
ghost use Rattle.answer_numbers.specs.Answers.{Refuses};
ghost use Rattle.strip_reader.specs.Answers.{reader_refusal};
ghost use Rattle.strip_export.specs.Reading.{
  judged,
  NamesTrack,
  not_there,
  StripCountsForC,
  StripKeyCountForC,
  StripKeyForC,
  StripKeysForC,
};

use answer_numbers::put;
use blocks::track::{BoneIndex, MorphIndex, TrackIndex};
use strip_reader::refusal::ReaderRefusal;
use strip_reader::{all_keys, counts, key, track};

#[tactic(auto, using(crate::proofs::ReadStrips::refusals))]
fn refused(_values: &mut [u64], why: ReaderRefusal) -> u32
    ensures { Refuses (reader_refusal why) _values.old result _values.new }
{
    u32::from(why.number())
}

#[unsafe(no_mangle)]
pub extern "C" fn limdroven_strip_counts(strip: &[u8], values: &mut [u64]) -> u32
    ensures { StripCountsForC strip.now values.old result values.new }
{
    match counts::counts(strip) {
        Ok(counts) => {
            put::put(
                values,
                0,
                &[u64::from(counts.bones), u64::from(counts.morphs)],
            );
            0
        }
        Err(why) => refused(values, why),
    }
}

// Bones are 0, morphs 1.
fn named_track(kind: u32, number: u32) -> Option<TrackIndex>
    ensures { NamesTrack kind number result }
{
    match kind {
        0 => Some(TrackIndex::Bone(BoneIndex(number))),
        1 => Some(TrackIndex::Morph(MorphIndex(number))),
        _ => None,
    }
}

// 19 is as late for a kind that there is not.
fn no_track(strip: &[u8]) -> ReaderRefusal
    ensures { reader_refusal result ≡ not_there (judged strip.now) }
{
    match counts::counts(strip) {
        Ok(_) => ReaderRefusal::Absent,
        Err(why) => why,
    }
}

#[unsafe(no_mangle)]
pub extern "C" fn limdroven_strip_key_count(
    strip: &[u8],
    kind: u32,
    track: u32,
    values: &mut [u64],
) -> u32
    ensures { StripKeyCountForC strip.now kind track values.old result values.new }
{
    let Some(track) = named_track(kind, track) else {
        return refused(values, no_track(strip));
    };
    match track::key_count(strip, track) {
        Ok(count) => {
            put::put(values, 0, &[u64::from(count)]);
            0
        }
        Err(why) => refused(values, why),
    }
}

#[unsafe(no_mangle)]
pub extern "C" fn limdroven_strip_key(
    strip: &[u8],
    kind: u32,
    track: u32,
    place: usize,
    values: &mut [u64],
) -> u32
    ensures { StripKeyForC strip.now kind track place values.old result values.new }
{
    let Some(track) = named_track(kind, track) else {
        return refused(values, no_track(strip));
    };
    match key::key(strip, track, place) {
        Ok(key) => {
            put::put(values, 0, &key.numbers().map(u64::from));
            0
        }
        Err(why) => refused(values, why),
    }
}

#[unsafe(no_mangle)]
pub extern "C" fn limdroven_strip_keys(
    strip: &[u8],
    first: usize,
    rows: &mut [u32],
    values: &mut [u64],
) -> u32
    ensures { StripKeysForC strip.now first rows.old values.old result rows.new values.new }
{
    match all_keys::keys(strip, first, rows) {
        Ok(count) => {
            put::put(values, 0, &[count as u64]);
            0
        }
        Err(why) => refused(values, why),
    }
}
