// A key passed over for its frame.
ghost use Rattle.std.specs.Prelude.{◌≡◌, ◌≤◌, ◌%◌, ◌^◌, cond, eqb, length, drop};
ghost use Rattle.blocks.specs.Kind.{kind_of};
ghost use Rattle.strip_reader.specs.Key.{form_of};
ghost use Rattle.strip_reader.specs.Skip.{skipped, frame_of, bytes_behind, width_of};

use crate::front::HEAD;
use binary::numbers;
use blocks::kind::Kind;

// The bytes of a group whose bit is the lowest.
fn width_if(map: u8, width: usize) -> usize
    ensures is { result ≡ cond (eqb (map % 2) 1) width 0 }
    ensures within { result ≤ width }
{
    if map % 2 == 1 { width } else { 0 }
}

fn fields_width(kind: Kind, map: u8) -> usize
    ensures { result ≡ width_of (form_of (kind_of kind)).groups map }
{
    match kind {
        Kind::Bone => {
            width_if(map, 12) + width_if(map / 2, 16) + width_if(map / 4, 12) + width_if(map / 8, 4)
        }
        Kind::Morph => width_if(map, 4),
    }
}

// How many maps name fields that there are.
fn known_maps(kind: Kind) -> u8
    ensures { result ≡ 2 ^ length (form_of (kind_of kind)).groups }
{
    match kind {
        Kind::Bone => 16,
        Kind::Morph => 2,
    }
}

// The frame of a key and the position behind the key, whose fields are not looked at.
pub(crate) fn skip_key(kind: Kind, strip: &[u8], at: usize) -> Option<(u32, usize)>
    ensures { bytes_behind strip.now result ≡ frame_of (skipped (form_of (kind_of kind)) (drop at strip.now)) }
{
    if strip.len() < at || strip.len() - at < HEAD {
        return None;
    }
    let map = strip[at + 4];
    if known_maps(kind) <= map {
        return None;
    }
    let fields = at + HEAD;
    let width = fields_width(kind, map);
    if strip.len() - fields < width {
        return None;
    }
    Some((numbers::u32_at(strip, at), fields + width))
}
