// Runs only where tracks are not as MMD writes them (marks, rising). Document 01, "Build order": "Then each track: its whole chain (6, 7,
// 8), then for each key, initial first, 9 to 13." 9 is never met (clip, proofs/Shared.antt), so nothing asks for it here. The length of a
// list that is written is a clause, here and in ready: it is no `Slots`, which would have to keep its fact at each write.
ghost use Rattle.std.specs.Prelude.{◌≡◌, ◌<◌, ◌≤◌, length};
ghost use Rattle.blocks.specs.Track.{number_of_track};
ghost use Rattle.blocks.specs.Block.{TrackOf, links};
ghost use Rattle.blocks.specs.Fault.{met_read};
ghost use Rattle.track_keys.specs.Keys.{key_meets};
ghost use Rattle.track_keys.specs.Tracks.{tracks_meet};

use crate::{key, ready};
use blocks::block::Records;
use blocks::fault::Fault;
use blocks::track::TrackIndex;
use chains::lookup::Indexed;

pub fn record_key(
    records: &Records,
    track: TrackIndex,
    p: usize,
    repeated: bool,
) -> Result<(), Fault>
    requires p_lt_count { p < records.now.block.records.count }
    requires is_track { TrackOf records.now.block track }
    ensures { met_read result ≡ key_meets records.now.section.now records.now.block.kind (number_of_track track) ((links records.now.section.now records.now.block).at p).frame ((links records.now.section.now records.now.block).at p).body repeated }
{
    key::key(&records.key(p), track, repeated)
}

// Nested loops over tracks and keys, left by the label at the first refusal, as document 01 names them ("Forms by place in the code").
pub fn all_tracks(indexed: &Indexed, list: &mut [u16]) -> Result<(), Fault>
    requires { indexed.now.records.block.records.count ≤ length list.old }
    ensures { met_read result ≡ tracks_meet indexed.now.records.section.now indexed.now.records.block indexed.now.records.block.initials.count }
{
    let mut met = Ok(());
    'tracks: for number in 0..indexed.records.block.initials.count {
        let track = indexed.records.track(number);
        match ready::make_ready(indexed, track, list) {
            Err(fault) => {
                met = Err(fault);
                break 'tracks;
            }
            Ok(keys) => {
                for (i, p) in list[..keys.records].iter().enumerate() {
                    let asked = record_key(
                        &indexed.records,
                        track,
                        *p as usize,
                        i + 1 == keys.again,
                    );
                    if let Err(fault) = asked {
                        met = Err(fault);
                        break 'tracks;
                    }
                }
            }
        }
    }
    met
}
