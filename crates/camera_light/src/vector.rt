// Three floats.
ghost use Rattle.std.specs.Prelude.{◌≡◌};
ghost use Rattle.camera_light.specs.Vector.{vector_of};

use std::num;

pub const VECTOR_WIDTH: usize = 12;

pub fn vector_of(bits: [u32; 3]) -> [f32; 3]
    ensures { result ≡ vector_of bits }
{
    bits.map(|x| num::f32_from_bits_with_nan(x))
}
