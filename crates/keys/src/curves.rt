// Document 01: four curves of four bytes each, an array by value, clamped curve by curve and handed to the strip writer.
ghost use Rattle.std.specs.Prelude.{◌≡◌, map};
ghost use Rattle.records.specs.Curves.{curves_at};
ghost use Rattle.strip.specs.Plain.{clamped};

use crate::body::BoneBody;
use records::curves;

// A byte above it counts as it.
const TOP: u8 = 127;

impl<'a> BoneBody<'a> {
    // A line for each curve, the last one the rotation's. With a function of one curve, called for each of the four, the bytes are no
    // longer clamped all at once: 39 instructions more a key, where one in two has curves.
    pub fn curves(&self) -> [[u8; 4]; 4]
        ensures { result ≡ map clamped (curves_at self.now.section.now self.now.at) }
    {
        let [x, y, z, r] = curves::curves_at(self.section, self.at);
        [
            [x[0].min(TOP), x[1].min(TOP), x[2].min(TOP), x[3].min(TOP)],
            [y[0].min(TOP), y[1].min(TOP), y[2].min(TOP), y[3].min(TOP)],
            [z[0].min(TOP), z[1].min(TOP), z[2].min(TOP), z[3].min(TOP)],
            [r[0].min(TOP), r[1].min(TOP), r[2].min(TOP), r[3].min(TOP)],
        ]
    }
}
