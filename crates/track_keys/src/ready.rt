// Runs, but for `initial_key`, only where tracks are not as MMD writes them (marks, rising). A track before its records' keys are asked:
// its chain listed, its first repeated frame found, and its initial record's key asked.
ghost use Rattle.std.specs.Prelude.{false, ◌≡◌, ◌≤◌, length};
ghost use Rattle.blocks.specs.Track.{number_of_track};
ghost use Rattle.blocks.specs.Block.{TrackOf, links};
ghost use Rattle.blocks.specs.Fault.{met_read};
ghost use Rattle.track_keys.specs.Keys.{key_meets};
ghost use Rattle.track_keys.specs.Ready.{KeysReady};

use crate::{frames, key};
use blocks::block::Records;
use blocks::fault::Fault;
use blocks::track::TrackIndex;
use chains::chain::Chain;
use chains::lookup::Indexed;

// How many records the chain has, and the number of the first key whose frame is repeated. No Option: where there is none, the number is
// that behind the last key, which no key meets.
#[derive(Clone, Copy)]
pub struct Keys {
    pub records: usize,
    pub again: usize,
}

pub fn initial_key(records: &Records, track: TrackIndex) -> Result<(), Fault>
    requires { TrackOf records.now.block track }
    ensures { met_read result ≡ key_meets records.now.section.now records.now.block.kind (number_of_track track) ((links records.now.section.now records.now.block).initial (number_of_track track)).frame ((links records.now.section.now records.now.block).initial (number_of_track track)).body false }
{
    key::key(&records.initial_key(track), track, false)
}

pub fn make_ready(indexed: &Indexed, track: TrackIndex, list: &mut [u16]) -> Result<Keys, Fault>
    requires is_track { TrackOf indexed.now.records.block track }
    requires count_in_bounds { indexed.now.records.block.records.count ≤ length list.old }
    ensures { KeysReady indexed.now.records.section.now indexed.now.records.block (number_of_track track) list.new result }
{
    let records = indexed.walk(track, list)?;
    let chain = Chain {
        indexed: *indexed,
        track,
    };
    let again = frames::first_repeated_frame(&chain, &mut list[..records]);
    initial_key(&indexed.records, track)?;
    Ok(Keys { records, again })
}
