// One check of a strip read back: the section is the strip. oracle/README.md has the format.
use blocks::kind::Kind;
use blocks::track::TrackIndex;
use strip_reader::all_keys;
use strip_reader::counts::StripCounts;
use strip_reader::refusal::ReaderRefusal;
use vectors::fields::Fields;
use vectors::file::Section;
use vectors::lent::{Lent, Place, Size};
use vectors::tally::{Outcome, Row};

// What a check expects of an answer in numbers.
#[derive(Drop)]
struct Expected<'a> {
    returned: usize,
    numbers: Fields<'a>,
}

impl<'a> Expected<'a> {
    fn numbers(self, numbers: &[u32]) -> bool {
        let Expected {
            returned,
            numbers: mut expected,
        } = self;
        for number in numbers {
            if *number != expected.u32() {
                return false;
            }
        }
        returned == 0 && expected.is_empty()
    }

    fn keys(self, keys: usize) -> bool {
        let Expected {
            returned,
            numbers: mut expected,
        } = self;
        returned == 0 && keys == expected.u32() as usize && expected.is_empty()
    }

    fn refusal(self, refusal: ReaderRefusal) -> bool {
        self.returned == usize::from(refusal.number())
    }
}

fn counts(strip: &[u8], expected: Expected<'_>) -> bool {
    match strip_reader::counts::counts(strip) {
        Ok(StripCounts { bones, morphs }) => expected.numbers(&[bones, morphs]),
        Err(refusal) => expected.refusal(refusal),
    }
}

fn key_count(strip: &[u8], track: TrackIndex, expected: Expected<'_>) -> bool {
    match strip_reader::track::key_count(strip, track) {
        Ok(keys) => expected.keys(keys as usize),
        Err(refusal) => expected.refusal(refusal),
    }
}

fn key(strip: &[u8], track: TrackIndex, place: usize, expected: Expected<'_>) -> bool {
    match strip_reader::key::key(strip, track, place) {
        Ok(key) => expected.numbers(&key.numbers()),
        Err(refusal) => expected.refusal(refusal),
    }
}

fn keys(strip: &[u8], first: usize, rows: &mut [u32], expected: Expected<'_>) -> bool {
    match all_keys::keys(strip, first, rows) {
        Ok(keys) => expected.keys(keys),
        Err(refusal) => expected.refusal(refusal),
    }
}

// Makes the check that comes next.
pub fn make(section: Section<'_>, checks: &mut Fields<'_>) -> Outcome {
    let strip = section.bytes;
    let call = checks.u8();
    let kind = if checks.u8() == 0 {
        Kind::Bone
    } else {
        Kind::Morph
    };
    let track = TrackIndex::new(kind, checks.u32());
    let place = checks.u64() as usize;
    let returned = usize::from(checks.u16());
    let numbers = usize::from(checks.u8());
    let room = usize::from(checks.u16());
    let held = usize::from(checks.u16());
    let expected = Expected {
        returned,
        numbers: checks.part(numbers.saturating_mul(4)),
    };
    let rows = Lent::read::<u32>(Size { room, held }, checks);
    let right = match call {
        0 => counts(strip, expected),
        1 => key_count(strip, track, expected),
        2 => key(strip, track, place, expected),
        _ => rows.right(&mut [u32::BEFORE; 256], |rows| {
            keys(strip, place, rows, expected)
        }),
    };
    Outcome {
        row: Row::Returned(returned),
        right,
    }
}
