// The tables of names and of ECH bytes: lengths among the numbers of a list, bytes in rooms one after the other.
ghost use Rattle.std.specs.Prelude.{◌≡◌, ◌<◌, ◌^◌, slice_index};
ghost use Rattle.probes.specs.Flat.{name_of, names_of, ech_of, echs_of, room_at};

use super::flat::size;
use records::names::{Ech, Echs, Name, Names, no_ech, no_name};

// A byte; 0 outside.
fn byte_at(bytes: &[u8], at: usize) -> u8
    ensures { result ≡ slice_index bytes.now at }
{
    if at < bytes.len() {
        return bytes[at];
    }
    0
}

// Room i of rooms of N bytes.
fn room<const N: usize>(bytes: &[u8], i: usize) -> [u8; N]
    requires { (N < 2 ^ 20) × (i < 40) }
    ensures { result ≡ room_at N bytes.now i }
{
    let mut room = [0u8; N];
    for k in 0..N {
        room[k] = byte_at(bytes, N * i + k);
    }
    room
}

#[tactic(auto, unfolding(crate::specs::Flat::name_of))]
fn name(list: &[u64], base: usize, bytes: &[u8], i: usize) -> Name
    requires { i < 14 }
    ensures { result ≡ name_of list.now base bytes.now i }
{
    let bytes = room(bytes, i);
    Name {
        len: size(list, base, i),
        bytes,
    }
}

// The names whose lengths stand from base on.
pub fn names(list: &[u64], base: usize, bytes: &[u8]) -> Names
    ensures { result ≡ names_of list.now base bytes.now }
{
    let n = no_name();
    let mut all = [n; 14];
    for i in 0..14 {
        all[i] = name(list, base, bytes, i);
    }
    Names { list: all }
}

#[tactic(auto, unfolding(crate::specs::Flat::ech_of))]
fn ech(list: &[u64], base: usize, bytes: &[u8], i: usize) -> Ech
    requires { i < 40 }
    ensures { result ≡ ech_of list.now base bytes.now i }
{
    let bytes = room(bytes, i);
    Ech {
        len: size(list, base, i),
        bytes,
    }
}

// The ECH configurations whose lengths stand from base on (40 of another type, so not by the same function).
pub fn echs(list: &[u64], base: usize, bytes: &[u8]) -> Echs
    ensures { result ≡ echs_of list.now base bytes.now }
{
    let e = no_ech();
    let mut all = [e; 40];
    for i in 0..40 {
        all[i] = ech(list, base, bytes, i);
    }
    Echs { list: all }
}
