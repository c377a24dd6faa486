// Bytes of a body copied into their rooms; what is left of a room is zero.
ghost use Rattle.std.specs.Prelude.{◌≡◌, ◌<◌, ◌^◌, length};
ghost use Rattle.records.specs.Lists.{padded};
ghost use Rattle.parts.specs.Rooms.{fits, kept, name_in, ech_in};

use numbers::field::Span;
use numbers::put::{has_room, put_bytes};
use records::names::{Ech, Name};

// Whether bytes lie in the body and fit a room.
#[tactic(auto, unfolding(crate::specs::Rooms::fits))]
fn is_kept(s: &[u8], b: Span, room: usize) -> bool
    ensures { result ≡ fits room s.now b }
{
    b.len <= room && has_room(s.len(), b.start, b.len)
}

// The bytes in a room of N, and how many they are; none where they don't lie in the body or don't fit.
#[tactic(auto, using(crate::proofs::Copying::kept_length, crate::proofs::Copying::put_front, crate::proofs::Copying::none_kept, crate::proofs::Copying::no_bytes_kept), unfolding(crate::specs::Rooms::fits))]
fn kept<const N: usize>(s: &[u8], b: Span) -> (usize, [u8; N])
    requires { N < 2 ^ 63 }
    ensures count { result.0 ≡ length (kept N s.now b) }
    ensures bytes { result.1 ≡ padded N 0 (kept N s.now b) }
{
    let mut bytes = [0u8; N];
    if !is_kept(s, b, N) {
        return (0, bytes);
    }
    let end = b.start + b.len;
    // They fit, so the writer takes them.
    let _ = put_bytes(&mut bytes, 0, &s[b.start..end]);
    (b.len, bytes)
}

// The bytes of a name.
#[tactic(auto, unfolding(crate::specs::Rooms::name_in))]
pub fn name_of(s: &[u8], b: Span) -> Name
    ensures { result ≡ name_in (kept 253 s.now b) }
{
    let (len, bytes) = kept::<253>(s, b);
    Name { len, bytes }
}

// ECH bytes.
#[tactic(auto, unfolding(crate::specs::Rooms::ech_in))]
pub fn ech_of(s: &[u8], b: Span) -> Ech
    ensures { result ≡ ech_in (kept 512 s.now b) }
{
    let (len, bytes) = kept::<512>(s, b);
    Ech { len, bytes }
}
