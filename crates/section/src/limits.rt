// The limits of the first edition (document 01, "Turned down": "By our limits").
#[derive(Clone, Copy)]
pub struct Limits {
    // 16: the most bytes that may be lent.
    pub bytes: usize,
    // 20: the highest bone or morph count.
    pub tracks: u32,
    // 20: the highest count of additional bone or morph records.
    pub additional: u32,
}

pub const EDITION_1: Limits = Limits {
    bytes: 16_777_215,
    tracks: 65_535,
    additional: 65_534,
};
