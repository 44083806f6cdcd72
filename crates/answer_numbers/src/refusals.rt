// A refusal's number is returned, its values are written.
ghost use Rattle.std.specs.Prelude.{◌≡◌};
ghost use Rattle.binary.specs.Answers.{reading_refusal};
ghost use Rattle.answer_numbers.specs.Put.{put};
ghost use Rattle.answer_numbers.specs.Answers.{values};
ghost use Rattle.asset_references.specs.Answers.{asset_refusal};

use crate::answers::RefusalNumbers;
use crate::put;
use asset_references::refusal::AssetRefusal;
use binary::refusal::Refusal;

#[tactic(auto, using(crate::proofs::Putting::puts))]
fn put_values(slice: &mut [u64], why: Refusal)
    ensures { slice.new ≡ put 0 (values (reading_refusal why)) slice.old }
{
    match why {
        Refusal::TooShort(place)
        | Refusal::NegativeCount(place)
        | Refusal::CountAboveLimit(place) => put::put(slice, 0, &[place as u64]),
        Refusal::TooLong | Refusal::Absent => {}
    }
}

impl RefusalNumbers for Refusal {
    ghost refusal_of = { reading_refusal };

    fn refused(self, values: &mut [u64]) -> u32 {
        put_values(values, self);
        u32::from(self.number())
    }
}

// None of these has a value.
impl RefusalNumbers for AssetRefusal {
    ghost refusal_of = { asset_refusal };

    #[tactic(auto, using(crate::proofs::AssetRefusals::asset_refusals))]
    fn refused(self, _values: &mut [u64]) -> u32 {
        u32::from(self.number())
    }
}
