// Runs only where tracks are not as MMD writes them (marks, rising). Document 01, module 4: the chain of a track, its records listed in the
// second work slice.
ghost use Rattle.std.specs.Prelude.{◌≡◌, ◌≤◌, length, IfOk};
ghost use Rattle.clip.specs.First.{member};
ghost use Rattle.clip.specs.Chain.{chain};
ghost use Rattle.blocks.specs.Kind.{kind_of};
ghost use Rattle.blocks.specs.Track.{number_of_track};
ghost use Rattle.blocks.specs.Block.{TrackOf, links};
ghost use Rattle.chains.specs.Walk.{walked_read};

use crate::lookup::Indexed;
use crate::near::Near;
use blocks::fault::Fault;
use blocks::track::TrackIndex;

// Whether a record is in a list.
fn listed(list: &[u16], position: usize) -> bool
    ensures { result ≡ member position list.now }
{
    list.iter().any(|p| *p as usize == position)
}

impl<'a> Indexed<'a> {
    // How many records the chain has. A record whose previous link is the one expected was not visited before (clip, proofs/Walked.antt),
    // so a cycle is told from a wrong previous link only where that link is wrong.
    pub fn walk(&self, track: TrackIndex, list: &mut [u16]) -> Result<usize, Fault>
        requires is_track { TrackOf self.now.records.block track }
        requires count_in_bounds { self.now.records.block.records.count ≤ length list.old }
        ensures result_after { walked_read list.new result ≡ chain (kind_of self.now.records.block.kind) (links self.now.records.section.now self.now.records.block) (number_of_track track) }
        ensures result_bound { IfOk result (λ n. n ≤ self.now.records.block.records.count) }
    {
        // A copy, so that the list written does not make the processor read it again.
        let indexed = *self;
        let mut link = indexed.records.first_link(track);
        let mut expected = track.number();
        let mut near = Near::default();
        let mut n = 0;
        while link != 0 {
            let Some(step) = indexed.step(link, near) else {
                return Err(Fault::MissingLink(track, link.cast_signed()));
            };
            let previous = indexed.records.previous_at(step.position);
            if previous != expected {
                if listed(&list[..n], step.position) {
                    return Err(Fault::Cycle(track, link.cast_signed()));
                }
                return Err(Fault::WrongPrevious(
                    track,
                    link.cast_signed(),
                    previous.cast_signed(),
                    expected.cast_signed(),
                ));
            }
            list[n] = step.position as u16;
            n += 1;
            expected = link;
            near = step.near;
            link = step.next;
        }
        Ok(n)
    }
}
