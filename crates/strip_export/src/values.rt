// The numbers of an answer, written from place 0 on as far as the slice reaches.
ghost use Rattle.std.specs.Prelude.{◌≡◌, [], ◌∷◌};
ghost use Rattle.std.specs.Int.{w32};
ghost use Rattle.std.proofs.Common.{of_z};
ghost use Rattle.answer_numbers.specs.Put.{put as written};
ghost use Rattle.clip.specs.Fields.{kind_value};
ghost use Rattle.blocks.specs.Kind.{kind_of};
ghost use Rattle.blocks.specs.Track.{kind_of_track, number_of_track};
ghost use Rattle.blocks.specs.Fault.{fault_of};
ghost use Rattle.strip_export.specs.Answers.{values as values_of};

use answer_numbers::put;
use blocks::fault::Fault;
use blocks::kind::Kind;
use blocks::track::TrackIndex;
use strip_call::answer::Built;

fn pattern(value: i32) -> u64
    ensures { result ≡ of_z w32 value }
{
    u64::from(value.cast_unsigned())
}

fn put_index(values: &mut [u64], kind: Kind, index: i32)
    ensures { values.new ≡ written 0 (of_z w32 (kind_value (kind_of kind)) ∷ of_z w32 index ∷ []) values.old }
{
    put::put(values, 0, &[u64::from(kind), pattern(index)]);
}

// A link or a frame.
fn put_of_track(values: &mut [u64], track: TrackIndex, value: i32)
    ensures { values.new ≡ written 0 (of_z w32 (kind_value (kind_of (kind_of_track track))) ∷ number_of_track track ∷ of_z w32 value ∷ []) values.old }
{
    let numbers = [
        u64::from(track.kind()),
        u64::from(track.number()),
        pattern(value),
    ];
    put::put(values, 0, &numbers);
}

// 12, 13 and 14 say no kind.
fn put_frame(values: &mut [u64], track: u32, frame: i32)
    ensures { values.new ≡ written 0 (track ∷ of_z w32 frame ∷ []) values.old }
{
    put::put(values, 0, &[u64::from(track), pattern(frame)]);
}

// An arm for each case: in one pattern of several with an i32 the check does not follow what it binds.
pub fn put_fault(values: &mut [u64], fault: Fault)
    ensures { values.new ≡ written 0 (values_of (fault_of fault)) values.old }
{
    match fault {
        Fault::NegativeIndex(kind, index) => put_index(values, kind, index),
        Fault::IndexBelowCount(kind, index, count) => {
            put::put(values, 0, &[u64::from(kind), pattern(index), count as u64]);
        }
        Fault::RepeatedIndex(kind, index) => put_index(values, kind, index),
        Fault::MissingLink(track, link) => put_of_track(values, track, link),
        Fault::Cycle(track, link) => put_of_track(values, track, link),
        Fault::WrongPrevious(track, link, found, expected) => {
            let numbers = [
                u64::from(track.kind()),
                u64::from(track.number()),
                pattern(link),
                pattern(found),
                pattern(expected),
            ];
            put::put(values, 0, &numbers);
        }
        Fault::NegativeFrame(track, frame) => put_of_track(values, track, frame),
        Fault::RepeatedFrame(track, frame) => put_of_track(values, track, frame),
        Fault::InvalidTranslation(bone, frame) => put_frame(values, bone.0, frame),
        Fault::InvalidOrientation(bone, frame) => put_frame(values, bone.0, frame),
        Fault::InvalidWeight(morph, frame) => put_frame(values, morph.0, frame),
        Fault::Disconnected(kind, records) => {
            put::put(values, 0, &[u64::from(kind), records as u64]);
        }
    }
}

pub fn put_built(values: &mut [u64], built: Built)
    ensures { values.new ≡ written 0 (built.strip_length ∷ built.reached ∷ built.loose ∷ []) values.old }
{
    let numbers = [
        built.strip_length as u64,
        built.reached as u64,
        built.loose as u64,
    ];
    put::put(values, 0, &numbers);
}
