// The items of each kind of record, after document 01's record table. `behind` is how many i32 stand behind a record's first
// one and before its payload: 2 in an initial record, 3 in an additional one, whose first is its index. It is how many, and no kind.
ghost use Rattle.std.specs.Prelude.{◌≡◌, ◌∷◌, ◌++◌, replicate};
ghost use Rattle.layout.specs.Records.{bone, morph, model, bone_state, morph_state, constraint_state, parent_state, pair};
ghost use Rattle.binary.specs.Items.{widths};

use binary::blocks::Items;
use binary::runs::Run;

// No items: a record may have fewer runs than there is room for.
pub const NONE: Run = Run { times: 0, width: 1 };

pub const fn run(times: u32, width: u8) -> Run
    ensures times { result.times ≡ times }
    ensures width { result.width ≡ width }
{
    Run {
        times: times as usize,
        width,
    }
}

pub fn bone_items(behind: u32) -> Items
    ensures { widths result ≡ 4 ∷ (replicate behind 4 ++ bone) }
{
    Items {
        first: 4,
        runs: [run(behind, 4), run(1, 16), run(7, 4), run(2, 1), NONE],
    }
}

pub fn morph_items(behind: u32) -> Items
    ensures { widths result ≡ 4 ∷ (replicate behind 4 ++ morph) }
{
    Items {
        first: 4,
        runs: [run(behind, 4), run(1, 4), run(1, 1), NONE, NONE],
    }
}

// A model record has a bool for each constraint and a pair of i32 for each outside parent.
pub fn model_items(behind: u32, constraints: u32, parents: u32) -> Items
    ensures { widths result ≡ 4 ∷ (replicate behind 4 ++ model constraints parents) }
{
    let pairs = Run {
        times: 2 * parents as usize,
        width: 4,
    };
    Items {
        first: 4,
        runs: [
            run(behind, 4),
            run(1, 1),
            run(constraints, 1),
            pairs,
            run(1, 1),
        ],
    }
}

// Seven f32.
pub fn pose_items() -> Items
    ensures { widths result ≡ replicate 7 4 }
{
    Items {
        first: 4,
        runs: [run(6, 4), NONE, NONE, NONE, NONE],
    }
}

pub fn bone_state_items() -> Items
    ensures { widths result ≡ bone_state }
{
    Items {
        first: 4,
        runs: [run(6, 4), run(3, 1), NONE, NONE, NONE],
    }
}

pub fn morph_state_items() -> Items
    ensures { widths result ≡ morph_state }
{
    Items {
        first: 4,
        runs: [NONE; 5],
    }
}

pub fn constraint_state_items() -> Items
    ensures { widths result ≡ constraint_state }
{
    Items {
        first: 1,
        runs: [NONE; 5],
    }
}

pub fn parent_state_items() -> Items
    ensures { widths result ≡ parent_state }
{
    Items {
        first: 4,
        runs: [run(3, 4), NONE, NONE, NONE, NONE],
    }
}

// The pair of i32 that a model record has for an outside parent.
pub fn pair_items() -> Items
    ensures { widths result ≡ pair }
{
    Items {
        first: 4,
        runs: [run(1, 4), NONE, NONE, NONE, NONE],
    }
}
