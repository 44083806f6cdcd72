// The items of camera and light records, after document 01's record table. `behind` is how many i32 stand behind a record's first
// one and before its payload: 2 in an initial record, 3 in an additional one.
ghost use Rattle.std.specs.Prelude.{◌≡◌, ◌∷◌, ◌++◌, replicate};
ghost use Rattle.layout.specs.Records.{camera, light};
ghost use Rattle.binary.specs.Items.{widths};
ghost use Rattle.camera_light.specs.Track.{items_of};

use crate::track::Kind;
use binary::blocks::Items;
use binary::runs::Run;
use records::items::{NONE, run};

fn camera_items(behind: u32) -> Items
    ensures { widths result ≡ 4 ∷ (replicate behind 4 ++ camera) }
{
    let words = Run {
        times: behind as usize + 9,
        width: 4,
    };
    Items {
        first: 4,
        runs: [words, run(1, 24), run(1, 1), run(1, 4), run(1, 1)],
    }
}

fn light_items(behind: u32) -> Items
    ensures { widths result ≡ 4 ∷ (replicate behind 4 ++ light) }
{
    Items {
        first: 4,
        runs: [run(behind, 4), run(6, 4), run(1, 1), NONE, NONE],
    }
}

pub(crate) fn record_items(kind: Kind, behind: u32) -> Items
    ensures { widths result ≡ 4 ∷ (replicate behind 4 ++ items_of kind) }
{
    match kind {
        Kind::Camera => camera_items(behind),
        Kind::Light => light_items(behind),
    }
}
