// A part of a section.
ghost use Rattle.std.specs.Prelude.{◌≡◌, take, drop};

// The bytes from an offset on, no more than there are.
pub fn part(s: &[u8], offset: usize, length: usize) -> &[u8]
    ensures { result.now ≡ take length (drop offset s.now) }
{
    if s.len() < offset {
        return &s[..0];
    }
    if s.len() - offset < length {
        return &s[offset..];
    }
    &s[offset..offset + length]
}
