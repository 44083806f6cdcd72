// A morph key read, with what 25 asks of it.
ghost use Rattle.std.specs.Prelude.{◌≡◌, [], ◌∷◌, drop, IfOk};
ghost use Rattle.clip.specs.Fields.{morph};
ghost use Rattle.strip.specs.Plain.{morph_groups};
ghost use Rattle.strip.specs.Keys.{map_byte};
ghost use Rattle.strip_reader.specs.Key.{form_of, not_of_builder, key};
ghost use Rattle.strip_reader.specs.Reads.{known_fields};
ghost use Rattle.strip_reader.specs.Morph.{weight_read, morph_field_key, morph_key_read, morph_key_of};

use crate::front;
use crate::front::Read;
use crate::key::MorphKey;
use crate::refusal::ReaderRefusal;
use keys::body::MorphBody;
use keys::plain;

// A key as it stands in a strip, an absent weight filled in.
#[derive(Clone, Copy)]
pub struct MorphKeyFields {
    pub frame: u32,
    pub map: u8,
    pub weight: [u8; 4],
}

// A map byte names whether the weight follows.
#[tactic(auto, unfolding(crate::specs::Reads::known_fields, crate::specs::Key::fields))]
fn read_weight(strip: &[u8], at: usize, map: u8) -> Read<[u8; 4]>
    ensures { weight_read strip.now result ≡ known_fields (form_of morph) map (drop at strip.now) }
{
    match map {
        0 => front::read_field(strip, at, false, [0; 4]),
        1 => front::read_field(strip, at, true, [0; 4]),
        2..=255 => Err(ReaderRefusal::UnknownMap),
    }
}

impl MorphKeyFields {
    // As it is answered.
    pub fn told(&self) -> MorphKey
        ensures { result ≡ morph_key_of self.now }
    {
        MorphKey {
            frame: self.frame,
            map: self.map,
            weight_bits: u32::from_le_bytes(self.weight),
        }
    }

    // 25 at the end of the key.
    #[tactic(auto, using(crate::proofs::MorphKeys::tested))]
    fn not_of_builder(&self) -> bool
        ensures { result ≡ not_of_builder (form_of morph) self.now.map (morph_field_key self.now) }
    {
        let body = MorphBody {
            section: &self.weight,
            at: 0,
        };
        match body.finite_weight() {
            Some(weight) => {
                let map = plain::unless(weight == 0.0, plain::WEIGHT_BIT);
                (map != self.map) | (front::LAST_FRAME < self.frame)
            }
            None => true,
        }
    }
}

#[tactic(auto, using(crate::proofs::Keys::key_read))]
pub fn read_morph_key(strip: &[u8], at: usize) -> Read<MorphKeyFields>
    ensures is { morph_key_read strip.now result ≡ key (form_of morph) (drop at strip.now) }
    ensures map { IfOk result (λ read. read.0.map ≡ map_byte morph_groups (read.0.weight ∷ [])) }
{
    let (frame, map, next) = front::read_head(strip, at)?;
    let (weight, next) = read_weight(strip, next, map)?;
    let key = MorphKeyFields { frame, map, weight };
    if key.not_of_builder() {
        return Err(ReaderRefusal::NeverWritten);
    }
    Ok((key, next))
}
