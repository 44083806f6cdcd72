// Strips read back, for C: what each call returns and writes stands at `strip_export::reading`.
ghost use Rattle.strip_export.specs.Reading.{
  StripCountsForC,
  StripKeyCountForC,
  StripKeyForC,
  StripKeysForC,
};

use strip_export::reading;

#[unsafe(no_mangle)]
pub extern "C" fn limdroven_strip_counts(strip: &[u8], values: &mut [u64]) -> u32
    ensures { StripCountsForC strip.now values.old result values.new }
{
    reading::limdroven_strip_counts(strip, values)
}

#[unsafe(no_mangle)]
pub extern "C" fn limdroven_strip_key_count(
    strip: &[u8],
    kind: u32,
    track: u32,
    values: &mut [u64],
) -> u32
    ensures { StripKeyCountForC strip.now kind track values.old result values.new }
{
    reading::limdroven_strip_key_count(strip, kind, track, values)
}

#[unsafe(no_mangle)]
pub extern "C" fn limdroven_strip_key(
    strip: &[u8],
    kind: u32,
    track: u32,
    place: usize,
    values: &mut [u64],
) -> u32
    ensures { StripKeyForC strip.now kind track place values.old result values.new }
{
    reading::limdroven_strip_key(strip, kind, track, place, values)
}

#[unsafe(no_mangle)]
pub extern "C" fn limdroven_strip_keys(
    strip: &[u8],
    first: usize,
    rows: &mut [u32],
    values: &mut [u64],
) -> u32
    ensures { StripKeysForC strip.now first rows.old values.old result rows.new values.new }
{
    reading::limdroven_strip_keys(strip, first, rows, values)
}
