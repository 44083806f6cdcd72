// Where the record that bears an index stands: its position in the file, and its place in the slots.
#[derive(Clone, Copy, Debug, PartialEq, Eq)]
pub struct Standing {
    pub position: usize,
    pub place: usize,
}
