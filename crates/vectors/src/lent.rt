// A slice that is lent to a call, and what it must hold afterwards.
ghost use Rattle.std.specs.Prelude.{true, ◌≡◌, ◌≤◌, ◌*◌, ℕ, List, length, take, drop};
ghost use Rattle.std.specs.Int.{from_le_bytes, w8, w16, w32, w64};
ghost use Rattle.vectors.specs.Fields.{padded};

use crate::fields::Fields;

// What a slice has: bytes, numbers, or places of a work slice or of rows. Each width has an impl of its own, two lines and two definitions.
pub trait Place: Copy + PartialEq {
    // What stands there before a call: every byte is 0xa5.
    const BEFORE: Self;

    ghost width: { ℕ };

    ghost value: { List ℕ → Self };

    // How many bytes a place has in the checks.
    fn width() -> usize
        ensures { result ≡ width };

    fn read(fields: &mut Fields<'_>) -> Self
        ensures value { result ≡ value fields.old.left.now }
        ensures rest { fields.new.left.now ≡ drop width fields.old.left.now };
}

impl Place for u8 {
    const BEFORE: u8 = 0xa5;

    ghost width = { 1 };

    ghost value = { λ left. from_le_bytes w8 (padded 1 left) };

    fn width() -> usize {
        1
    }

    fn read(fields: &mut Fields<'_>) -> u8 {
        fields.u8()
    }
}

impl Place for u16 {
    const BEFORE: u16 = 0xa5a5;

    ghost width = { 2 };

    ghost value = { λ left. from_le_bytes w16 (padded 2 left) };

    fn width() -> usize {
        2
    }

    fn read(fields: &mut Fields<'_>) -> u16 {
        fields.u16()
    }
}

impl Place for u32 {
    const BEFORE: u32 = 0xa5a5_a5a5;

    ghost width = { 4 };

    ghost value = { λ left. from_le_bytes w32 (padded 4 left) };

    fn width() -> usize {
        4
    }

    fn read(fields: &mut Fields<'_>) -> u32 {
        fields.u32()
    }
}

impl Place for u64 {
    const BEFORE: u64 = 0xa5a5_a5a5_a5a5_a5a5;

    ghost width = { 8 };

    ghost value = { λ left. from_le_bytes w64 (padded 8 left) };

    fn width() -> usize {
        8
    }

    fn read(fields: &mut Fields<'_>) -> u64 {
        fields.u64()
    }
}

// How many places are lent, and how many of them hold what stands in the checks; those behind stay as they were.
#[derive(Clone, Copy)]
pub struct Size {
    pub room: usize,
    pub held: usize,
}

#[derive(Drop)]
pub struct Lent<'a> {
    size: Size,
    answer: Fields<'a>,
}

impl<'a> Lent<'a> {
    // What the places held hold comes next in the checks.
    pub fn read<T: Place>(size: Size, checks: &mut Fields<'a>) -> Lent<'a>
        ensures size { result.size ≡ size }
        ensures answer { result.answer.left.now ≡ take (size.held * T.width) checks.old.left.now }
        ensures rest { checks.new.left.now ≡ drop (size.held * T.width) checks.old.left.now }
    {
        Lent {
            size,
            answer: checks.part(size.held.saturating_mul(T::width())),
        }
    }

    fn same<T: Place>(self, places: &[T]) -> bool {
        let Lent { size, mut answer } = self;
        let (held, kept) = places.split_at(size.held.min(places.len()));
        for place in held {
            if *place != T::read(&mut answer) {
                return false;
            }
        }
        kept.iter().all(|place| *place == T::BEFORE)
    }

    // Whether the call is right and leaves in the slice, which is a part of the space, what it must. A check that lends more than the
    // space is wrong.
    pub fn right<T: Place, F: FnOnce(&mut [T]) -> bool>(self, space: &mut [T], call: F) -> bool
        requires { F.IsAlwaysCallable call }
        ensures { result ≡ true → self.entry.size.room ≤ length space.old }
    {
        match space.get_mut(..self.size.room) {
            Some(places) => call(places) && self.same(places),
            None => false,
        }
    }
}
