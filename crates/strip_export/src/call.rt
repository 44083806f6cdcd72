// The strip call for C: 0 is returned and the strip's length, reached and loose are written, or a refusal's number is returned and its
// values are written, as far as `values` reaches. Where document 01 has a refusal say bone or morph, 0 or 1 is written first.
ghost use Rattle.strip_call.specs.Answers.{strip_refusal};
ghost use Rattle.strip_export.specs.Answers.{Refuses};
ghost use Rattle.strip_export.specs.Run.{StripCallForC};
ghost use Rattle.binary.specs.Answers.{reading_refusal};
ghost use Rattle.blocks.specs.Fault.{fault_of};

use crate::values;
use answer_numbers::answers::RefusalNumbers;
use answer_numbers::put;
use binary::refusal::Refusal;
use blocks::fault::Fault;
use strip_call::answer::StripRefusal;

fn not_read(numbers: &mut [u64], why: Refusal) -> u32
    ensures { Refuses (reading_refusal why) numbers.old result numbers.new }
{
    why.refused(numbers)
}

fn not_built(numbers: &mut [u64], fault: Fault) -> u32
    ensures { Refuses (fault_of fault) numbers.old result numbers.new }
{
    values::put_fault(numbers, fault);
    u32::from(fault.number())
}

fn refused(numbers: &mut [u64], why: StripRefusal) -> u32
    ensures { Refuses (strip_refusal why) numbers.old result numbers.new }
{
    match why {
        StripRefusal::Reading(why) => not_read(numbers, why),
        StripRefusal::Build(fault) => not_built(numbers, fault),
        StripRefusal::WorkTooShort(places) | StripRefusal::OutputTooShort(places) => {
            put::put(numbers, 0, &[places as u64]);
            u32::from(why.number())
        }
    }
}

#[unsafe(no_mangle)]
pub extern "C" fn limdroven_strip(
    section: &[u8],
    start: usize,
    first: &mut [u16],
    second: &mut [u16],
    output: &mut [u8],
    values: &mut [u64],
) -> u32
    ensures { StripCallForC (record { section = section.now; start = start; first = first.old; second = second.old; output = output.old }) values.old result first.new second.new output.new values.new }
{
    match strip_call::call::strip(section, start, first, second, output) {
        Err(why) => refused(values, why),
        Ok(built) => {
            values::put_built(values, built);
            0
        }
    }
}
