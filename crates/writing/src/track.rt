// One track: "key count u16 and the keys in chain order", the initial record's key first.
ghost use Rattle.std.specs.Prelude.{◌≡◌, length};
ghost use Rattle.keys.specs.Placed.{Room, Wrote};
ghost use Rattle.writing.specs.Chains.{Fine, track_of};

use crate::{chain, key};
use chains::chain::Chain;
use keys::write;

#[tactic(auto, using(crate::proofs::OneTrack::sums))]
pub fn track_length(chain: &Chain) -> usize
    requires { Fine chain.now }
    ensures { result ≡ length (track_of chain.now) }
{
    let initial = chain.indexed.records.initial_key(chain.track);
    2 + key::key_length(&initial, chain.track) + chain::measure(chain)
}

#[tactic(auto, using(crate::proofs::OneTrack::rooms))]
pub fn write_track(chain: &Chain, output: &mut [u8], place: usize) -> usize
    requires fine { Fine chain.now }
    requires room { Room place (track_of chain.now) output.old }
    ensures { Wrote place (track_of chain.now) output.old result output.new }
{
    let initial = chain.indexed.records.initial_key(chain.track);
    let next = key::write_key(&initial, chain.track, output, place + 2);
    let written = chain::write_records(chain, output, next);
    write::write_count(output, place, written.records + 1);
    written.end
}
