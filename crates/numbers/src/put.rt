// Writing into a lent buffer: all of it, or nothing.
ghost use Rattle.std.specs.Prelude.{◌≡◌, ◌+◌, nat_le};
ghost use Rattle.numbers.specs.Put.{put_answer, put_bytes};
ghost use Rattle.numbers.specs.Shown.{wrote_shown};

use super::refusal::Refusal;

// Whether a buffer of len bytes has room for need bytes from the place at on.
pub fn has_room(len: usize, at: usize, need: usize) -> bool
    ensures { result ≡ nat_le (at + need) len }
{
    at <= len && need <= len - at
}

// Writes the bytes from the place at on, or nothing where they do not fit; the place after the last byte.
#[tactic(auto, unfolding(crate::specs::Put::put_answer, crate::specs::Put::put_bytes))]
pub fn put_bytes(out: &mut [u8], at: usize, bytes: &[u8]) -> Result<usize, Refusal>
    ensures answer { wrote_shown result ≡ put_answer out.old at bytes.now }
    ensures bytes { out.new ≡ put_bytes out.old at bytes.now }
{
    if !has_room(out.len(), at, bytes.len()) {
        return Err(Refusal::NoRoom);
    }
    // By the byte: copied at once, they would need memmove of the C library, which the archive does without.
    for i in 0..bytes.len() {
        out[at + i] = bytes[i];
    }
    Ok(at + bytes.len())
}
