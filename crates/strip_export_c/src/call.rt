// The strip call for C: what it returns and writes stands at `strip_export::call`.
ghost use Rattle.strip_export.specs.Run.{StripCallForC};

#[unsafe(no_mangle)]
pub extern "C" fn limdroven_strip(
    section: &[u8],
    start: usize,
    first: &mut [u16],
    second: &mut [u16],
    output: &mut [u8],
    values: &mut [u64],
) -> u32
    ensures { StripCallForC (record { section = section.now; start = start; first = first.old; second = second.old; output = output.old }) values.old result first.new second.new output.new values.new }
{
    strip_export::call::limdroven_strip(section, start, first, second, output, values)
}
