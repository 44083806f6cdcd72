// Items of one width, one behind the other.
ghost use Rattle.std.specs.Prelude.{◌≡◌, ◌*◌, ◌<◌};

// Their number is at most twice a count, or a few more than one.
#[derive(Clone, Copy)]
pub struct Run {
    pub times: usize,
    pub width: u8,
    ghost few: { times < 8589934592 },
}

impl Run {
    #[tactic(auto, using(crate::proofs::RunSizes::run_small))]
    pub fn size(&self) -> usize
        ensures is { result ≡ self.now.times * self.now.width }
        ensures small { result < 2199023255552 }
    {
        self.times * self.width as usize
    }
}
