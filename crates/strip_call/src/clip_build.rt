// Document 01, module 5: all bones, then all morphs, in the parts of the work slices that belong to each kind.
ghost use Rattle.std.specs.Prelude.{◌+◌, ◌≤◌, length};
ghost use Rattle.strip_call.specs.Building.{Builds, ClipBuilds};
ghost use Rattle.strip_call.specs.Need.{need_of};
ghost use Rattle.strip_call.specs.Parts.{part, Outside};

use crate::answer::Counted;
use crate::build;
use crate::model_records::ModelRecords;
use blocks::block::Records;
use blocks::fault::Fault;

// The build of one kind in the places from one on.
fn build_part(
    records: &Records,
    from: usize,
    first: &mut [u16],
    second: &mut [u16],
) -> Result<Counted, Fault>
    requires first_long_enough { from + records.now.block.records.count ≤ length first.old }
    requires second_long_enough { from + records.now.block.records.count ≤ length second.old }
    ensures builds { Builds records.now.section.now records.now.block (part from records.now.block.records.count first.new) (part from records.now.block.records.count second.new) result }
    ensures first_outside { Outside from records.now.block.records.count first.old first.new }
    ensures second_outside { Outside from records.now.block.records.count second.old second.new }
{
    let end = from + records.block.records.count;
    build::build_kind(records, &mut first[from..end], &mut second[from..end])
}

#[tactic(auto, using(crate::proofs::PartLaws::clip_parts))]
pub fn build_clip(
    records: &ModelRecords,
    first: &mut [u16],
    second: &mut [u16],
) -> Result<Counted, Fault>
    requires first_long_enough { need_of records.now ≤ length first.old }
    requires second_long_enough { need_of records.now ≤ length second.old }
    ensures builds { ClipBuilds records.now.bones.section.now records.now.bones.block records.now.morphs.block first.new second.new result }
    ensures first_outside { Outside 0 (need_of records.now) first.old first.new }
    ensures second_outside { Outside 0 (need_of records.now) second.old second.new }
{
    let of_bones = build_part(&records.bones, 0, first, second)?;
    let behind = records.bones.block.records.count;
    let of_morphs = build_part(&records.morphs, behind, first, second)?;
    Ok(Counted {
        reached: of_bones.reached + of_morphs.reached,
        loose: of_bones.loose + of_morphs.loose,
    })
}
