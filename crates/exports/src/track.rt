// The summaries of camera and light sections.
ghost use Rattle.section.specs.Limits.{edition1};
ghost use Rattle.answer_numbers.specs.Answers.{WritesAnswer};
ghost use Rattle.camera_light.specs.Track.{track_summary};
ghost use Rattle.camera_light.specs.declared.track.Kind.{Kind};
ghost use Rattle.answer_numbers.specs.Tracks.{track_summary as track_numbers};

use answer_numbers::answers;
use camera_light::track;
use camera_light::track::Kind;

#[unsafe(no_mangle)]
pub extern "C" fn limdroven_camera_summary(section: &[u8], start: usize, values: &mut [u64]) -> u32
    ensures { WritesAnswer track_numbers (track_summary edition1 Kind.Camera section.now start) values.old result values.new }
{
    answers::say(
        track::read_document_track_summary(section, start, Kind::Camera),
        values,
    )
}

#[unsafe(no_mangle)]
pub extern "C" fn limdroven_light_summary(section: &[u8], start: usize, values: &mut [u64]) -> u32
    ensures { WritesAnswer track_numbers (track_summary edition1 Kind.Light section.now start) values.old result values.new }
{
    answers::say(
        track::read_document_track_summary(section, start, Kind::Light),
        values,
    )
}
