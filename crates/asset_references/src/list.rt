// The list of references, entry by entry.
ghost use Rattle.std.specs.Prelude.{◌≡◌};
ghost use Rattle.asset_references.specs.References.{first_reference};
ghost use Rattle.asset_references.specs.Answers.{reference_read};

// A reference's kind and text, and the list behind it; nothing where it is not whole.
#[tactic(auto, using(crate::proofs::References::split_first_reference), unfolding(crate::specs::References::first_reference))]
pub fn split_first_reference(list: &[u8]) -> Option<(u8, &[u8], &[u8])>
    ensures { reference_read result ≡ first_reference list.now }
{
    if list.len() < 3 {
        return None;
    }
    let width = usize::from(u16::from_le_bytes([list[1], list[2]]));
    if list.len() - 3 < width {
        return None;
    }
    let end = 3 + width;
    Some((list[0], &list[3..end], &list[end..]))
}
