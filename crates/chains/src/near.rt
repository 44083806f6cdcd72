// Where the next record of a chain may be found. The places of a chain's records in the slots, which are in the order of their indices, are
// often at even distances, as in files that MMD writes. Then the place behind two of them is known before the link is read, and the
// processor need not wait for it. It is a guess: nothing is promised of it, and `lookup` tests it.
#[derive(Clone, Copy, Default)]
pub struct Near {
    pub last: usize,
    pub next: usize,
}

impl Near {
    // A record was found at a place: the next one may be as far from it as it is from the one before. Where that would be before the first
    // place, the number wraps, and no place has it.
    pub fn after(self, place: usize) -> Near {
        Near {
            last: place,
            next: place.wrapping_add(place).wrapping_sub(self.last),
        }
    }
}
