// What the strip call answered and what it left in the slices, as they are printed.
use std::fmt;
use strip_call::answer::{Built, StripRefusal};

#[derive(Clone, Copy)]
pub struct Answer(pub Result<Built, StripRefusal>);

impl fmt::Display for Answer {
    fn fmt<W: fmt::Write>(&self, f: &mut fmt::Formatter<W>) -> fmt::Result {
        match self.0 {
            Ok(built) => write!(
                f,
                "length {} reached {} loose {}",
                built.strip_length, built.reached, built.loose
            ),
            Err(why) => write!(f, "refused {why}"),
        }
    }
}

// The places of a work slice, each behind a space.
#[derive(Clone, Copy)]
pub struct Work<'a>(pub &'a [u16]);

impl fmt::Display for Work<'_> {
    fn fmt<W: fmt::Write>(&self, f: &mut fmt::Formatter<W>) -> fmt::Result {
        for place in self.0 {
            write!(f, " {place}")?;
        }
        Ok(())
    }
}
