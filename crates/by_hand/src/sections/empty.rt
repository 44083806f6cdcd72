// Document 01's section of 340 zero bytes, and the same with its bone count, at 260, -1.
use super::put::put;

pub fn zeros() -> [u8; 340] {
    [0; 340]
}

pub fn negative_count() -> [u8; 340] {
    let mut s = zeros();
    put(&mut s, 260, (-1i32).to_le_bytes());
    s
}
