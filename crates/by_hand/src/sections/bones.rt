// Document 01's section of one nameless bone, alone or with one or two additional records. It ends at 430, 492 or 554.
ghost use Rattle.std.specs.Prelude.{◌≤◌};

use super::put::{put, put_f32, put_u32};

// A bone's record from its frame on; its translation and its orientation's z are 0.
#[derive(Clone, Copy)]
struct Record {
    frame: u32,
    previous: u32,
    next: u32,
    x: f32,
    y: f32,
    w: f32,
}

// What a record is where a case says nothing of it.
const PLAIN: Record = Record {
    frame: 0,
    previous: 0,
    next: 0,
    x: 0.0,
    y: 0.0,
    w: 1.0,
};

impl Record {
    fn bytes(self) -> [u8; 58] {
        let mut bytes = [0; 58];
        put_u32(&mut bytes, 0, self.frame);
        put_u32(&mut bytes, 4, self.previous);
        put_u32(&mut bytes, 8, self.next);
        for curve in [12, 16, 20, 24] {
            put(&mut bytes, curve, [20, 20, 107, 107]);
        }
        put_f32(&mut bytes, 40, self.x);
        put_f32(&mut bytes, 44, self.y);
        put_f32(&mut bytes, 52, self.w);
        bytes
    }
}

// The bone alone, and zeros behind it.
fn with_bone<const N: usize>(bone: Record) -> [u8; N]
    requires { 430 ≤ N }
{
    let mut s = [0; N];
    put_u32(&mut s, 260, 1);
    put(&mut s, 308, bone.bytes());
    s
}

// The bone and a record of frame 1, and zeros behind them.
fn with_record<const N: usize>(bone_next: u32, index: u32, previous: u32, next: u32) -> [u8; N]
    requires { 492 ≤ N }
{
    let bone = Record {
        next: bone_next,
        ..PLAIN
    };
    let record = Record {
        frame: 1,
        previous,
        next,
        ..PLAIN
    };
    let mut s = with_bone(bone);
    put_u32(&mut s, 366, 1);
    put_u32(&mut s, 370, index);
    put(&mut s, 374, record.bytes());
    s
}

pub fn one_bone() -> [u8; 430] {
    with_bone(PLAIN)
}

// The orientation's x, y and w.
pub fn turned(x: f32, y: f32, w: f32) -> [u8; 430] {
    with_bone(Record { x, y, w, ..PLAIN })
}

// The bone and one record like it but of frame 1.
pub fn linked(bone_next: u32, index: u32, previous: u32, next: u32) -> [u8; 492] {
    with_record(bone_next, index, previous, next)
}

// The bone linked to record 1, and a record 2 of the same frame with links 0 and 0.
pub fn linked_and_loose() -> [u8; 554] {
    let record = Record { frame: 1, ..PLAIN };
    let mut s = with_record(1, 1, 0, 0);
    put_u32(&mut s, 366, 2);
    put_u32(&mut s, 432, 2);
    put(&mut s, 436, record.bytes());
    s
}
