// Bytes written into an output at a place, and so the fields of a key. Each call answers where they end. The output and the place stand
// beside one another. Tried: the output's rest, `&mut output[n..]`, each call answering how many bytes it wrote; and a struct of both, with
// `put` as a method. Each proves in fewer lines, but a strip call takes 1 to 4 instructions in a hundred more of bones, 5 to 8 of morphs.
ghost use Rattle.std.specs.Prelude.{cond, [], ◌+◌};
ghost use Rattle.keys.specs.Placed.{Room, Wrote, pose_bytes, curve_bytes};

use crate::body::BoneBody;
use crate::plain::BonePlain;

#[tactic(auto, using(crate::proofs::Stores::stores))]
pub fn put(bytes: &[u8], output: &mut [u8], place: usize) -> usize
    requires { Room place bytes.now output.old }
    ensures { Wrote place bytes.now output.old result output.new }
{
    let end = place + bytes.len();
    output[place..end].copy_from_slice(bytes);
    end
}

// The bytes of a group are written unless it is plain.
#[tactic(auto, using(crate::proofs::Placing::left_out))]
pub fn put_unless(plain: bool, bytes: &[u8], output: &mut [u8], place: usize) -> usize
    requires { Room place (cond plain [] bytes.now) output.old }
    ensures { Wrote place (cond plain [] bytes.now) output.old result output.new }
{
    if plain {
        return place;
    }
    put(bytes, output, place)
}

impl BonePlain {
    pub fn write_pose(self, body: &BoneBody, output: &mut [u8], place: usize) -> usize
        requires { Room place (pose_bytes self body.now.section.now body.now.at) output.old }
        ensures { Wrote place (pose_bytes self body.now.section.now body.now.at) output.old result output.new }
    {
        let next = put_unless(self.translation, &body.translation(), output, place);
        put_unless(self.orientation, &body.orientation(), output, next)
    }

    #[tactic(auto, using(crate::proofs::Clamping::curves))]
    pub fn write_curves(self, curves: [[u8; 4]; 4], output: &mut [u8], place: usize) -> usize
        requires { Room place (curve_bytes self curves) output.old }
        ensures { Wrote place (curve_bytes self curves) output.old result output.new }
    {
        match (self.curves, self.rotation) {
            (true, true) => place,
            (true, false) => put(&curves[3], output, place),
            (false, true) => put(curves[..3].as_flattened(), output, place),
            (false, false) => put(curves.as_flattened(), output, place),
        }
    }
}
