// The cases of camera and light sections.

use camera_light::camera::CameraKeyframeSummary;
use camera_light::track;
use camera_light::track::Kind;
use entries::keyframe::Keyframe;
use std::io;

fn say_track(rt: &impl Print, what: &str, section: &[u8], kind: Kind) -> io::Result<()> {
    match track::read_document_track_summary(section, 0, kind) {
        Ok(t) => println!(rt; "{what}: read to {}", t.offset_end),
        Err(why) => println!(rt; "{what}: refused {why}"),
    }
}

fn say_perspective(
    rt: &impl Print,
    what: &str,
    section: &[u8],
    include_index: bool,
) -> io::Result<()> {
    match CameraKeyframeSummary::read(section, 0, include_index, 0) {
        Ok(c) => {
            let perspective = if c.perspective_view { "on" } else { "off" };
            println!(rt; "{what}: perspective {perspective}")
        }
        Err(why) => println!(rt; "{what}: refused {why}"),
    }
}

pub fn run(rt: &impl Print) -> io::Result<()> {
    let zeros = [0; 119];
    say_track(rt, "camera, 119 zero bytes", &zeros, Kind::Camera)?;
    say_perspective(rt, "its initial record", &zeros, false)?;
    say_perspective(rt, "its additional record 0", &zeros, true)?;
    say_track(rt, "camera, 118 zero bytes", &zeros[0..118], Kind::Camera)?;
    say_track(rt, "light, 65 zero bytes", &zeros[0..65], Kind::Light)?;
    say_track(rt, "light, 64 zero bytes", &zeros[0..64], Kind::Light)
}
