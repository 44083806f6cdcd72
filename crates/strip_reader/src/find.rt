// Where a track or a key of an accepted strip stands, found by passing over those before it. Nothing is found of a strip that ends before.
ghost use Rattle.std.specs.Prelude.{◌≤◌, List, ◌∷◌, ℕ, length, drop};
ghost use Rattle.strip.specs.Strip.{FieldsKey};
ghost use Rattle.blocks.specs.Kind.{kind_of};
ghost use Rattle.strip_reader.specs.Key.{form_of};
ghost use Rattle.strip_reader.specs.Stands.{KeysAt, TracksAt, FindsKeys, FindsTracks};

use crate::{judge, skip};
use blocks::kind::Kind;

// Behind so many keys.
pub fn skip_keys(kind: Kind, strip: &[u8], at: usize, count: u32) -> Option<usize>
    ensures { (ks : List FieldsKey) (behind : List ℕ) → KeysAt (form_of (kind_of kind)) ks (drop at strip.now) behind → count ≤ length ks → FindsKeys (form_of (kind_of kind)) (drop count ks) strip.now behind result }
{
    let mut next = at;
    'keys: for _ in 0..count {
        match skip::skip_key(kind, strip, next) {
            Some((_, behind)) => next = behind,
            None => return None,
        }
    }
    Some(next)
}

// Behind a track.
fn skip_track(kind: Kind, strip: &[u8], at: usize) -> Option<usize>
    ensures { (ks : List FieldsKey) (tracks : List (List FieldsKey)) (behind : List ℕ) → TracksAt (form_of (kind_of kind)) (ks ∷ tracks) (drop at strip.now) behind → FindsTracks (form_of (kind_of kind)) tracks strip.now behind result }
{
    match judge::read_count(strip, at) {
        Ok((count, first)) => skip_keys(kind, strip, first, u32::from(count)),
        Err(_) => None,
    }
}

// Behind so many tracks.
pub fn skip_tracks(kind: Kind, strip: &[u8], at: usize, count: u32) -> Option<usize>
    ensures { (tracks : List (List FieldsKey)) (behind : List ℕ) → TracksAt (form_of (kind_of kind)) tracks (drop at strip.now) behind → count ≤ length tracks → FindsTracks (form_of (kind_of kind)) (drop count tracks) strip.now behind result }
{
    let mut next = at;
    'tracks: for _ in 0..count {
        match skip_track(kind, strip, next) {
            Some(behind) => next = behind,
            None => return None,
        }
    }
    Some(next)
}
