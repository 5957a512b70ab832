// What several crates share: bytes and numbers of two bytes, read from a lent buffer and written into it at any place; and, in specs/
// and proofs/, the small definitions and laws that would otherwise be said again in each.
#![tactic(auto)]

ghost use Rattle.std.specs.Prelude.{◌≡◌, ◌+◌, ◌*◌, ◌/◌, ◌%◌, [], ◌∷◌, get_or, set};
ghost use Rattle.std.proofs.lemmas.List.Edits.{sets};

// The byte at a place of a lent buffer, and 0 past its end.
#[tactic(auto, using(crate::proofs::Lists::byte_past))]
pub fn byte_at(lent: &[u8], place: usize) -> u8
    ensures { result ≡ get_or lent.now place 0 }
{
    if place < lent.len() {
        return lent[place];
    }
    0
}

// The byte at a place of a lent buffer becomes this one; past its end nothing changes.
#[tactic(auto, using(crate::proofs::Lists::set_past))]
pub fn set_byte(lent: &mut [u8], place: usize, byte: u8)
    ensures { lent.new ≡ set lent.old place byte }
{
    if place < lent.len() {
        lent[place] = byte;
    }
}

// Two bytes as a number, the low one first.
pub fn word(low: u8, high: u8) -> u16
    ensures { result ≡ low + 256 * high }
{
    u16::from_le_bytes([low, high])
}

// The number whose two bytes lie at these places of a lent buffer, where a byte is 0 past its end.
pub fn word_at(lent: &[u8], low: usize, high: usize) -> u16
    ensures { result ≡ get_or lent.now low 0 + 256 * get_or lent.now high 0 }
{
    word(byte_at(lent, low), byte_at(lent, high))
}

// These bytes lie from a place of the lent buffer on, as far as it reaches.
pub fn lay(lent: &mut [u8], place: usize, bytes: &[u8])
    ensures { lent.new ≡ sets lent.old place bytes.now }
{
    if lent.len() <= place {
        return;
    }
    for (i, byte) in bytes.iter().enumerate() {
        set_byte(lent, place + i, *byte);
    }
}

// A number lies from a place on, its low byte first.
pub fn set_word(lent: &mut [u8], place: usize, number: u16)
    ensures { lent.new ≡ sets lent.old place (number % 256 ∷ number / 256 ∷ []) }
{
    lay(lent, place, &number.to_le_bytes());
}
