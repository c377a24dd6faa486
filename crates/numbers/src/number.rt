// Numbers on a tape: groups of seven bits, the lowest first; the eighth bit of a byte says that another follows.
ghost use Rattle.std.specs.Prelude.{◌≡◌, ◌+◌, ◌*◌, ◌%◌, ◌^◌, ◌<◌, length};
ghost use Rattle.numbers.specs.Numbers.{read_number, number_bytes};
ghost use Rattle.numbers.specs.Put.{put_answer, put_bytes};
ghost use Rattle.numbers.specs.Shown.{shown, wrote_shown};

use super::put::has_room;
use super::refusal::Refusal;

// The number v with the low seven bits of b above its i groups.
fn add_group(v: u64, b: u8, i: u32) -> u64
    requires { (i < 10) × (v < 2 ^ (7 * i)) × (2 ^ (7 * i) * (b % 128) < 2 ^ 64) }
    ensures { result ≡ v + 2 ^ (7 * i) * (b % 128) }
{
    v | (((b & 127) as u64) << (7 * i))
}

// The number that starts at the place at, and the place after its last byte.
#[tactic(auto, using(crate::proofs::NumberLaws::at_zero, crate::proofs::NumberLaws::at_lone))]
pub fn read_number(s: &[u8], at: usize) -> Result<(u64, usize), Refusal>
    ensures { shown result ≡ read_number s.now at }
{
    let mut v: u64 = 0;
    let mut i: u32 = 0;
    let mut p = at;
    // (no `for` over the ten groups: reading took a third longer)
    loop {
        if s.len() <= p {
            return Err(Refusal::Cut);
        }
        let b = s[p];
        if i == 9 {
            if 1 < b {
                return Err(Refusal::BadNumber);
            }
        }
        v = add_group(v, b, i);
        p += 1;
        if b < 128 {
            if b == 0 {
                if 0 < i {
                    return Err(Refusal::BadNumber);
                }
            }
            return Ok((v, p));
        }
        i += 1;
    }
}

// The low seven bits of v, with the eighth bit set: another group follows.
fn group_of(v: u64) -> u8
    ensures { result ≡ 128 + v % 128 }
{
    128 | ((v & 127) as u8)
}

// How many bytes n takes.
pub fn number_len(n: u64) -> usize
    ensures { result ≡ length (number_bytes n) }
{
    let mut v = n;
    let mut i: usize = 0;
    // (what is left decides, not i: a `for` would be no plainer, here and below)
    while 128 <= v {
        v = v >> 7;
        i += 1;
    }
    i + 1
}

// Writes n from the place at on, or nothing where it does not fit; the place after the last byte.
pub fn write_number(out: &mut [u8], at: usize, n: u64) -> Result<usize, Refusal>
    ensures answer { wrote_shown result ≡ put_answer out.old at (number_bytes n) }
    ensures bytes { out.new ≡ put_bytes out.old at (number_bytes n) }
{
    let need = number_len(n);
    if !has_room(out.len(), at, need) {
        return Err(Refusal::NoRoom);
    }
    let mut v = n;
    let mut i: usize = 0;
    while 128 <= v {
        out[at + i] = group_of(v);
        v = v >> 7;
        i += 1;
    }
    out[at + i] = v as u8;
    Ok(at + need)
}
