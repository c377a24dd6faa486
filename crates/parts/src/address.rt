// Addresses in bytes, alone and in a row.
ghost use Rattle.std.specs.Prelude.{ℕ, ◌+◌, ◌≤◌, ◌<◌, ◌≡◌, length, get_or};
ghost use Rattle.parts.specs.Addresses.{word, long, four, six, scoped, address, addresses_in, no_fours, no_sixes, fours_in, sixes_in};
ghost use Rattle.parts.specs.Items.{items, counted};
ghost use Rattle.parts.specs.Shown.{shown};
ghost use Rattle.parts.specs.Reading.{read};
ghost use Rattle.parts.specs.Filling.{stored, filled};
ghost use Rattle.records.specs.declared.queries.Addr.{Addr};

use super::reading::{Fault, Reading, field};
use super::row::{Kind, read_row};
use numbers::field::{read_at_most, read_bytes};
use numbers::refusal::Refusal;
use records::queries::{Addr, Addresses, no_addresses};
use records::services::{Hint, no_hint};

// How an address is written: 4 bytes, 16 bytes, or 16 bytes and a scope.
#[derive(Clone, Copy)]
pub enum Form {
    Four,
    Six,
    Scoped,
}

// Items in a row: how many, and where the first stands.
#[derive(Clone, Copy)]
pub struct Items {
    pub count: usize,
    pub first: usize,
}

// Hints of a service.
#[derive(Clone, Copy)]
pub struct Fours {
    pub count: usize,
    pub list: [u32; 4],
}

#[derive(Clone, Copy)]
pub struct Sixes {
    pub count: usize,
    pub list: [Hint; 4],
}

fn byte_at(s: &[u8], p: usize) -> u32
    requires { p < length s.now }
    ensures { (result ≡ get_or s.now p 0) × (result < 256) }
{
    s[p] as u32
}

// 4 bytes, the highest first.
#[tactic(auto, unfolding(crate::specs::Addresses::word))]
fn word_at(s: &[u8], p: usize) -> u32
    requires { p + 4 ≤ length s.now }
    ensures { result ≡ word s.now p }
{
    let q1 = p + 1;
    let q2 = p + 2;
    let q3 = p + 3;
    byte_at(s, p) * 16777216 + byte_at(s, q1) * 65536 + byte_at(s, q2) * 256 + byte_at(s, q3)
}

// 8 bytes, the highest first.
#[tactic(auto, unfolding(crate::specs::Addresses::long))]
fn long_at(s: &[u8], p: usize) -> u64
    requires { p + 8 ≤ length s.now }
    ensures { result ≡ long s.now p }
{
    let h = word_at(s, p) as u64;
    let q = p + 4;
    let l = word_at(s, q) as u64;
    h * 4294967296 + l
}

// An IPv4 address.
#[tactic(auto, unfolding(crate::specs::Addresses::four, numbers::specs::Fields::bytes_at))]
pub fn read_four(s: &[u8], at: usize) -> Reading<Addr>
    ensures { shown result ≡ four s.now at }
{
    let (_, end) = field(at, read_bytes(s, at, 4))?;
    let lo = u64::from(word_at(s, at));
    Ok((
        Addr {
            hi: 0,
            lo,
            scope: 0,
        },
        end,
    ))
}

// An IPv6 address without scope.
#[tactic(auto, unfolding(crate::specs::Addresses::six, numbers::specs::Fields::bytes_at))]
pub fn read_six(s: &[u8], at: usize) -> Reading<Addr>
    ensures { shown result ≡ six s.now at }
{
    let (_, end) = field(at, read_bytes(s, at, 16))?;
    let hi = long_at(s, at);
    let lo = long_at(s, at + 8);
    Ok((Addr { hi, lo, scope: 0 }, end))
}

// An IPv6 address and its scope.
#[tactic(auto, unfolding(crate::specs::Addresses::scoped, numbers::specs::Fields::at_most))]
fn read_scoped(s: &[u8], at: usize) -> Reading<Addr>
    ensures { shown result ≡ scoped s.now at }
{
    let (a, next) = read_six(s, at)?;
    let (scope, end) = field(next, read_at_most(s, next, 4294967295, Refusal::OutOfRange))?;
    Ok((
        Addr {
            scope: scope as u32,
            ..a
        },
        end,
    ))
}

impl Kind<Addr> for Form {
    ghost told = { address };

    fn read(&self, s: &[u8], at: usize) -> Reading<Addr> {
        match self {
            Form::Four => read_four(s, at),
            Form::Six => read_six(s, at),
            Form::Scoped => read_scoped(s, at),
        }
    }
}

// A count and so many addresses.
pub fn read_addresses(form: Form, s: &[u8], at: usize, most: u64) -> Reading<Items>
    ensures { shown result ≡ counted most (address form s.now) s.now at }
{
    read_row(&form, s, at, most)
}

// Reads the items of a row once more, and stores what is kept of each.
fn fill<T: Copy, K: Fn(Addr) -> T>(
    form: Form,
    s: &[u8],
    l: Items,
    out: &mut [T],
    keep: K,
) -> Result<usize, Fault>
    requires callable { (p : ℕ) (a : Addr) (q : ℕ) → read a q ≡ address form s.now p → K.pre keep a }
    requires room { l.count ≤ length out.old }
    ensures length { length out.new ≡ length out.old }
    ensures stored { (g : Addr → T) → ((a : Addr) (x : T) → K.post keep a x → x ≡ g a) → filled result out.new ≡ stored g out.old 0 (items (address form s.now) l.count l.first) }
{
    let mut p = l.first;
    for i in 0..l.count {
        let (a, next) = form.read(s, p)?;
        out[i] = keep(a);
        p = next;
    }
    Ok(p)
}

// The addresses of an answer, copied from where they stand.
pub fn fill_addresses(form: Form, s: &[u8], l: Items) -> Addresses
    ensures { result ≡ addresses_in form s.now l }
{
    let mut out = no_addresses();
    if 8 < l.count {
        return out;
    }
    match fill(form, s, l, &mut out.list, |a| a) {
        Ok(_) => out,
        Err(_) => no_addresses(),
    }
}

fn no_fours() -> Fours
    ensures { result ≡ no_fours }
{
    Fours {
        count: 0,
        list: [0; 4],
    }
}

fn no_sixes() -> Sixes
    ensures { result ≡ no_sixes }
{
    let h = no_hint();
    Sixes {
        count: 0,
        list: [h; 4],
    }
}

// The IPv4 hints of a service, likewise.
pub fn fill_fours(s: &[u8], l: Items) -> Fours
    ensures { result ≡ fours_in s.now l }
{
    let mut out = no_fours();
    if 4 < l.count {
        return out;
    }
    match fill(Form::Four, s, l, &mut out.list, |a| a.lo as u32) {
        Ok(_) => Fours {
            count: l.count,
            ..out
        },
        Err(_) => no_fours(),
    }
}

// The IPv6 hints.
pub fn fill_sixes(s: &[u8], l: Items) -> Sixes
    ensures { result ≡ sixes_in s.now l }
{
    let mut out = no_sixes();
    if 4 < l.count {
        return out;
    }
    match fill(
        Form::Six,
        s,
        l,
        &mut out.list,
        |a| Hint { hi: a.hi, lo: a.lo },
    ) {
        Ok(_) => Sixes {
            count: l.count,
            ..out
        },
        Err(_) => no_sixes(),
    }
}
