// Some i32 or f32, one behind the other, as their 32 bits each.
ghost use Rattle.std.specs.Prelude.{◌≡◌};
ghost use Rattle.binary.specs.Groups.{u32s};
ghost use Rattle.binary.specs.Answers.{read};

use crate::numbers;
use crate::refusal::Read;

#[tactic(auto, using(crate::proofs::NumbersRead::read_u32s_le))]
pub fn read_u32s_le<const N: usize>(s: &[u8], at: usize) -> Read<[u32; N]>
    ensures { read result ≡ u32s N s.now at }
{
    let mut values = [0; N];
    let mut next = at;
    for i in 0..N {
        (values[i], next) = numbers::read_u32_le(s, next)?;
    }
    Ok((values, next))
}
