// Counts of checks by what they are to answer.
ghost use Rattle.std.specs.Prelude.{◌≡◌};
ghost use Rattle.vectors.specs.Tally.{counted, one_more, added, count_of};

use std::fmt;

// No count goes further, and no file here has so many checks; an endless one is left.
pub const MOST: u64 = 1000000;

fn more(n: u64) -> u64
    ensures { result ≡ one_more n }
{
    if n < MOST { n + 1 } else { n }
}

#[derive(Clone, Copy)]
pub enum Row {
    // 0 where the call refuses nothing, or the refusal's number.
    Returned(usize),
    Bytes,
}

// How a check came out.
#[derive(Clone, Copy)]
pub struct Outcome {
    pub row: Row,
    pub right: bool,
}

#[derive(Clone, Copy, Default)]
pub struct Count {
    pub made: u64,
    pub wrong: u64,
}

impl Count {
    fn add(&mut self, right: bool)
        ensures { self.new ≡ counted right self.old }
    {
        self.made = more(self.made);
        if !right {
            self.wrong = more(self.wrong);
        }
    }
}

impl fmt::Display for Count {
    fn fmt<W: fmt::Write>(&self, f: &mut fmt::Formatter<W>) -> fmt::Result {
        write!(f, "{} wrong {}", self.made, self.wrong)
    }
}

#[derive(Clone, Copy, Default)]
pub struct Tally {
    pub sections: u64,
    pub checks: u64,
    // Refusals have numbers up to 25.
    pub returned: [Count; 26],
    pub bytes: Count,
}

impl Tally {
    pub fn add_section(&mut self)
        ensures { self.new ≡ record self.old { sections = one_more self.old.sections } }
    {
        self.sections = more(self.sections);
    }

    #[tactic(auto, unfolding(crate::specs::Tally::added))]
    pub fn add(&mut self, check: Outcome)
        ensures { self.new ≡ added check.row check.right self.old }
    {
        self.checks = more(self.checks);
        match check.row {
            // No refusal has these numbers; stored as returned they count so, as before.
            Row::Returned(29) => self.checks = more(self.checks),
            Row::Returned(30) => self.add_section(),
            Row::Returned(31) => self.bytes.add(check.right),
            Row::Returned(number) => {
                // Not `get_mut`: nothing is known of the array after what it lends.
                if number < self.returned.len() {
                    self.returned[number].add(check.right);
                }
            }
            Row::Bytes => self.bytes.add(check.right),
        }
    }

    #[tactic(auto, unfolding(crate::specs::Tally::count_of))]
    pub fn count(&self, row: Row) -> Count
        ensures { result ≡ count_of row self.now }
    {
        match row {
            Row::Returned(number) => self.returned.get(number).copied().unwrap_or_default(),
            Row::Bytes => self.bytes,
        }
    }
}

impl fmt::Display for Tally {
    fn fmt<W: fmt::Write>(&self, f: &mut fmt::Formatter<W>) -> fmt::Result {
        write!(f, "sections {}\nchecks {}", self.sections, self.checks)
    }
}
