// What is left of a part of a file, read from the front. Numbers are little endian; a byte past the end counts as 0.
ghost use Rattle.std.specs.Prelude.{◌≡◌, ◌↔◌, ◌≤◌, ◌++◌, IsTrue, length, take, drop};
ghost use Rattle.std.specs.Int.{from_le_bytes, w8, w16, w32, w64};
ghost use Rattle.vectors.specs.Fields.{padded};

// Puts the part at the beginning of the bytes.
fn put(bytes: &mut [u8], part: &[u8])
    requires { length part.now ≤ length bytes.old }
    ensures { bytes.new ≡ part.now ++ drop (length part.now) bytes.old }
{
    bytes[..part.len()].copy_from_slice(part);
}

#[derive(Drop)]
pub struct Fields<'a> {
    pub left: &'a [u8],
}

impl<'a> Fields<'a> {
    pub fn new(bytes: &'a [u8]) -> Fields<'a>
        ensures { result.left.now ≡ bytes.now }
    {
        Fields { left: bytes }
    }

    pub fn is_empty(&self) -> bool
        ensures { IsTrue result ↔ (length self.now.left.now ≡ 0) }
    {
        self.left.is_empty()
    }

    // The n bytes that come next, as far as there are so many.
    pub fn part(&mut self, n: usize) -> Fields<'a>
        ensures part { result.left.now ≡ take n self.old.left.now }
        ensures rest { self.new.left.now ≡ drop n self.old.left.now }
    {
        let (part, left) = self.left.split_at(n.min(self.left.len()));
        self.left = left;
        Fields { left: part }
    }

    #[tactic(auto, unfolding(crate::specs::Fields::padded))]
    fn array<const N: usize>(&mut self) -> [u8; N]
        ensures bytes { result ≡ padded N self.old.left.now }
        ensures rest { self.new.left.now ≡ drop N self.old.left.now }
    {
        let mut bytes = [0; N];
        put(&mut bytes, self.part(N).left);
        bytes
    }

    // One line for each width: no trait of std has `from_le_bytes`.
    pub fn u8(&mut self) -> u8
        ensures value { result ≡ from_le_bytes w8 (padded 1 self.old.left.now) }
        ensures rest { self.new.left.now ≡ drop 1 self.old.left.now }
    {
        u8::from_le_bytes(self.array())
    }

    pub fn u16(&mut self) -> u16
        ensures value { result ≡ from_le_bytes w16 (padded 2 self.old.left.now) }
        ensures rest { self.new.left.now ≡ drop 2 self.old.left.now }
    {
        u16::from_le_bytes(self.array())
    }

    pub fn u32(&mut self) -> u32
        ensures value { result ≡ from_le_bytes w32 (padded 4 self.old.left.now) }
        ensures rest { self.new.left.now ≡ drop 4 self.old.left.now }
    {
        u32::from_le_bytes(self.array())
    }

    pub fn u64(&mut self) -> u64
        ensures value { result ≡ from_le_bytes w64 (padded 8 self.old.left.now) }
        ensures rest { self.new.left.now ≡ drop 8 self.old.left.now }
    {
        u64::from_le_bytes(self.array())
    }
}
