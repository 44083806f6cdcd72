// Numbers or bytes written from a place on, as far as the slice reaches.
ghost use Rattle.std.specs.Prelude.{◌≡◌};
ghost use Rattle.answer_numbers.specs.Put.{put};
ghost use Rattle.answer_numbers.specs.Answers.{WritesPart};

#[tactic(auto, using(crate::proofs::Putting::puts))]
pub fn put<T: Copy>(slice: &mut [T], at: usize, items: &[T])
    ensures { slice.new ≡ put at items.now slice.old }
{
    if at < slice.len() {
        let fit = items.len().min(slice.len() - at);
        // Not `copy_from_slice`: the archive for C would need `memmove` from outside for it.
        for i in 0..fit {
            slice[at + i] = items[i];
        }
    }
}

pub fn put_part(output: &mut [u8], part: &[u8]) -> usize
    ensures { WritesPart part.now output.old result output.new }
{
    put(output, 0, part);
    part.len()
}
