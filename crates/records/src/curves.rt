// A bone's interpolation is four curves of four bytes each: x, y, z, rotation (document 01, "Forms by place in the code").
ghost use Rattle.std.specs.Prelude.{◌≡◌, ◌+◌, ◌≤◌, length};
ghost use Rattle.records.specs.Curves.{curves_at, no_curves};

use binary::numbers;

// The four curves of 16 bytes, as they stand. The bytes are read at once: what is done to each of them is then done to all in one
// instruction.
#[tactic(auto, unfolding(layout::specs::Walk::bytes_at))]
pub fn curves_at(s: &[u8], at: usize) -> [[u8; 4]; 4]
    requires { at + 16 ≤ length s.now }
    ensures { result ≡ curves_at s.now at }
{
    let b: [u8; 16] = numbers::bytes(s, at);
    [
        [b[0], b[1], b[2], b[3]],
        [b[4], b[5], b[6], b[7]],
        [b[8], b[9], b[10], b[11]],
        [b[12], b[13], b[14], b[15]],
    ]
}

pub fn no_curves() -> [[u8; 4]; 4]
    ensures { result ≡ no_curves }
{
    [[0; 4]; 4]
}
