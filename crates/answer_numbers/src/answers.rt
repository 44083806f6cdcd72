// An answer as numbers in a slice, or the refusal's number and its values.
ghost use Rattle.std.specs.Prelude.{◌≡◌, ℕ, List};
ghost use Rattle.layout.specs.Walk.{Refusal};
ghost use Rattle.binary.specs.Answers.{answer_by};
ghost use Rattle.answer_numbers.specs.Put.{put};
ghost use Rattle.answer_numbers.specs.Answers.{Refuses, WritesAnswer};

pub trait Numbers: Sized {
    ghost numbers: { Self → List ℕ };

    // From the slice's first place on, as far as it reaches.
    fn put(self, values: &mut [u64])
        ensures { values.new ≡ put 0 (numbers self) values.old };

    // From any place on, as far as it reaches.
    #[tactic(auto, using(crate::proofs::Putting::puts))]
    fn put_at(self, values: &mut [u64], at: usize)
        ensures { values.new ≡ put at (numbers self) values.old }
    {
        let first = at.min(values.len());
        self.put(&mut values[first..]);
    }
}

// Why a call gives no answer.
pub trait RefusalNumbers: Copy {
    ghost refusal_of: { Self → Refusal };

    // The number is returned, the values are written.
    fn refused(self, values: &mut [u64]) -> u32
        ensures { Refuses (refusal_of self) values.old result values.new };
}

// 0 where there is an answer.
pub fn say<T: Numbers, R: RefusalNumbers>(answer: Result<T, R>, values: &mut [u64]) -> u32
    ensures { WritesAnswer T.numbers (answer_by R.refusal_of answer) values.old result values.new }
{
    match answer {
        Ok(x) => {
            x.put(values);
            0
        }
        Err(why) => why.refused(values),
    }
}
