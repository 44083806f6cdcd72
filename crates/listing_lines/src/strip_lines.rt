// The lines of a strip's keys.
ghost use Rattle.std.specs.Prelude.{◌≡◌, ◌≤◌, length};
ghost use Rattle.layout.specs.Walk.{answered};
ghost use Rattle.section.specs.Limits.{edition1};
ghost use Rattle.strip.specs.Strip.{count_width, Contents};
ghost use Rattle.strip_reader.specs.Read.{read_strip};
ghost use Rattle.listing_lines.specs.Written.{Written};
ghost use Rattle.listing_lines.specs.Lines.{key_lines, all_keys};

use crate::rows;
use crate::rows::ROW;
use strip_reader::all_keys;

// As many keys as are asked for at once: their rows take 32 KB. Each asking judges the whole strip, which is short where a section of
// 65,536 bytes is listed: it has at most 3,104 keys.
const KEYS: usize = 512;

// Of a strip that is read and has so many keys. Each reading of it answers as the first did, so that nothing is asked of the answer.
pub fn write_keys(output: &mut [u8], at: usize, strip: &[u8], count: usize) -> usize
    requires place { at ≤ length output.old }
    requires counted { (c : Contents) → read_strip edition1 count_width strip.now ≡ answered c → count ≡ all_keys c }
    ensures within { result ≤ length output.new }
    ensures writes { (c : Contents) → read_strip edition1 count_width strip.now ≡ answered c → Written at (key_lines c) output.old result output.new }
{
    let mut rows = [0; ROW * KEYS];
    let mut end = at;
    let mut first = 0;
    while first < count {
        let _ = all_keys::keys(strip, first, &mut rows);
        let met = KEYS.min(count - first);
        let (asked, _) = rows.as_chunks::<ROW>();
        end = rows::write_rows(output, end, &asked[..met]);
        first += met;
    }
    end
}
