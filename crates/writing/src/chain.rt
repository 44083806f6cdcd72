// The keys of a track's chain, its initial record's apart.
ghost use Rattle.std.specs.Prelude.{◌≡◌, length};
ghost use Rattle.keys.specs.Placed.{Room, Wrote};
ghost use Rattle.chains.specs.Positions.{records_of};
ghost use Rattle.writing.specs.Chains.{Fine, keys_bytes_of};

use crate::key;
use chains::chain::Chain;

// How many bytes they have.
#[tactic(auto, using(crate::proofs::Measuring::measuring))]
pub fn measure(chain: &Chain) -> usize
    requires { Fine chain.now }
    ensures { result ≡ length (keys_bytes_of chain.now) }
{
    let mut bytes = 0;
    for p in chain.positions() {
        bytes += key::key_length(&chain.indexed.records.key(p), chain.track);
    }
    bytes
}

// How many records were written, and where their keys end.
#[derive(Clone, Copy)]
pub struct Written {
    pub records: usize,
    pub end: usize,
}

// The records are counted as they are written: the links are followed once.
pub fn write_records(chain: &Chain, output: &mut [u8], place: usize) -> Written
    requires fine { Fine chain.now }
    requires room { Room place (keys_bytes_of chain.now) output.old }
    ensures records_value { result.records ≡ length (records_of chain.now) }
    ensures wrote { Wrote place (keys_bytes_of chain.now) output.old result.end output.new }
{
    let mut written = Written {
        records: 0,
        end: place,
    };
    for p in chain.positions() {
        let record = chain.indexed.records.key(p);
        written.end = key::write_key(&record, chain.track, output, written.end);
        written.records += 1;
    }
    written
}
