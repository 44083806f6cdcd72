// A section of one nameless morph of weight 0 and one additional record of frame 1, index 1 and links 0 and 0. The morph count is at
// 264, the initial record at 312 and the additional one at 333; the section ends at 383.
use super::put::{put_f32, put_u32};

// The morph's next link, and the record's weight.
pub fn one_morph(morph_next: u32, weight: f32) -> [u8; 383] {
    let mut s = [0; 383];
    put_u32(&mut s, 264, 1);
    put_u32(&mut s, 320, morph_next);
    put_u32(&mut s, 329, 1);
    put_u32(&mut s, 333, 1);
    put_u32(&mut s, 337, 1);
    put_f32(&mut s, 349, weight);
    s
}
