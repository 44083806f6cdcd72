// The strip call.
ghost use Rattle.std.specs.Prelude.{◌+◌, ◌≤◌, length};
ghost use Rattle.strip.specs.Strip.{count_width};
ghost use Rattle.strip.specs.Call.{slices_tested};
ghost use Rattle.clip.specs.Section.{bones, morphs};
ghost use Rattle.strip_call.specs.Answers.{LeavesOutcome};
ghost use Rattle.strip_call.specs.Need.{need_of};
ghost use Rattle.strip_call.specs.Outcomes.{records_outcome, Leaves, WasRead};
ghost use Rattle.strip_call.specs.Run.{StripCall};

use crate::answer::{Built, StripRefusal};
use crate::clip_bytes::Clip;
use crate::model_records::ModelRecords;
use crate::{clip_build, model_records};
use blocks::block::Records;
use blocks::kind::Kind;
use chains::chain::Chains;
use chains::lookup::Indexed;
use section::model;
use section::model::Model;

// The slices stand beside one another as they are lent: each contract says of each what it held and holds.

// The clip is built, and its strip written. A refusal leaves the work slices as the build left them.
fn build_and_write<'a>(
    records: &ModelRecords<'a>,
    first: &mut [u16],
    second: &mut [u16],
    output: &mut [u8],
) -> Result<Built, StripRefusal>
    requires first_long_enough { need_of records.now ≤ length first.old }
    requires second_long_enough { need_of records.now ≤ length second.old }
    ensures { Leaves records.now first.old second.old output.old result first.new second.new output.new }
{
    let counted = clip_build::build_clip(records, first, second)?;
    let (bones, morphs) = first[..records.need()].split_at(records.bones.block.records.count);
    let clip = Clip {
        bones: Chains {
            indexed: Indexed {
                records: records.bones,
                slots: bones,
            },
        },
        morphs: Chains {
            indexed: Indexed {
                records: records.morphs,
                slots: morphs,
            },
        },
    };
    if let Some(length) = clip.too_long(output.len()) {
        return Err(StripRefusal::OutputTooShort(length));
    }
    let strip_length = clip.write(output);
    Ok(Built {
        strip_length,
        reached: counted.reached,
        loose: counted.loose,
    })
}

// Refused: "3 to 15 and 18 leave the first A + B places of both u16 slices 0".
fn strip_records(
    records: &ModelRecords,
    first: &mut [u16],
    second: &mut [u16],
    output: &mut [u8],
) -> Result<Built, StripRefusal>
    requires first_long_enough { need_of records.now ≤ length first.old }
    requires second_long_enough { need_of records.now ≤ length second.old }
    ensures { LeavesOutcome (records_outcome records.now first.old second.old output.old) result first.new second.new output.new }
{
    let built = build_and_write(records, first, second, output);
    if built.is_err() {
        let need = records.need();
        first[..need].fill(0);
        second[..need].fill(0);
    }
    built
}

// The section is read.
#[tactic(auto, using(crate::proofs::Called::refusals))]
fn strip_model(
    s: &[u8],
    m: &Model,
    first: &mut [u16],
    second: &mut [u16],
    output: &mut [u8],
) -> Result<Built, StripRefusal>
    requires { WasRead s.now m.now }
    ensures { LeavesOutcome (slices_tested first.old second.old output.old count_width s.now m.now ((bones s.now m.now).additional + (morphs s.now m.now).additional)) result first.new second.new output.new }
{
    let bones = Records {
        section: s,
        block: model_records::model_block(Kind::Bone, m),
    };
    let morphs = Records {
        section: s,
        block: model_records::model_block(Kind::Morph, m),
    };
    let records = ModelRecords { bones, morphs };
    let need = records.need();
    if first.len() < need || second.len() < need {
        return Err(StripRefusal::WorkTooShort(need));
    }
    strip_records(&records, first, second, output)
}

// Document 01, "The strip": every section, start and slices are taken.
#[tactic(auto, using(crate::proofs::Called::refusals))]
pub fn strip(
    section: &[u8],
    start: usize,
    first: &mut [u16],
    second: &mut [u16],
    output: &mut [u8],
) -> Result<Built, StripRefusal>
    ensures { StripCall (record { section = section.now; start = start; first = first.old; second = second.old; output = output.old }) result first.new second.new output.new }
{
    let (m, _) = model::read_model(section, start)?;
    strip_model(section, &m, first, second, output)
}
