// The lines of keys that are given by their rows, 16 numbers a key.
ghost use Rattle.std.specs.Prelude.{◌≡◌, ◌≤◌, length};
ghost use Rattle.listing_lines.specs.Written.{Written};
ghost use Rattle.listing_lines.specs.Rows.{numbered, row_line, row_lines};

use crate::lines;

// The numbers of a key.
pub const ROW: usize = 16;

fn name(kind: u32) -> &'static [u8]
    ensures { result.now ≡ numbered kind }
{
    if kind == 0 { b"bone" } else { b"morph" }
}

#[tactic(auto, unfolding(crate::specs::Rows::row_line))]
fn write_row(output: &mut [u8], at: usize, row: &[u32; ROW]) -> usize
    requires { at ≤ length output.old }
    ensures { Written at (row_line row.now) output.old result output.new }
{
    let (track, frame, map) = (row[1], row[3], row[4]);
    lines::write_key(
        output,
        at,
        name(row[0]),
        track as usize,
        frame as usize,
        map as usize,
    )
}

pub fn write_rows(output: &mut [u8], at: usize, rows: &[[u32; ROW]]) -> usize
    requires { at ≤ length output.old }
    ensures { Written at (row_lines rows.now) output.old result output.new }
{
    let mut end = at;
    for row in rows {
        end = write_row(output, end, row);
    }
    end
}
