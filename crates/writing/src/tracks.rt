// All tracks of one kind, one behind the other.
ghost use Rattle.std.specs.Prelude.{◌≡◌, length};
ghost use Rattle.keys.specs.Placed.{Room, Wrote};
ghost use Rattle.writing.specs.Chains.{FineTracks, tracks_of};

use crate::track;
use chains::chain::Chains;

#[tactic(auto, using(crate::proofs::Measuring::measuring))]
pub fn tracks_length(chains: &Chains) -> usize
    requires { FineTracks chains.now }
    ensures { result ≡ length (tracks_of chains.now) }
{
    let mut bytes = 0;
    for number in 0..chains.indexed.records.block.initials.count {
        let track = chains.indexed.records.track(number);
        bytes += track::track_length(&chains.chain(track));
    }
    bytes
}

pub fn write_tracks(chains: &Chains, output: &mut [u8], place: usize) -> usize
    requires fine { FineTracks chains.now }
    requires room { Room place (tracks_of chains.now) output.old }
    ensures { Wrote place (tracks_of chains.now) output.old result output.new }
{
    let mut end = place;
    for number in 0..chains.indexed.records.block.initials.count {
        let track = chains.indexed.records.track(number);
        end = track::write_track(&chains.chain(track), output, end);
    }
    end
}
