// Fields that every body is made of, read left to right: each with the place after it.
ghost use Rattle.std.specs.Prelude.{◌≡◌, ◌-◌, ◌≤◌, length, take, drop};
ghost use Rattle.numbers.specs.Fields.{at_most, bytes_at, name_length, named, name_at};
ghost use Rattle.numbers.specs.Names.{name_ok, longest_name, longest_origin};
ghost use Rattle.numbers.specs.Numbers.{read_number};
ghost use Rattle.numbers.specs.Refusals.{refusal_number};
ghost use Rattle.numbers.specs.Shown.{shown};

use super::name::name_ok;
use super::number::read_number;
use super::put::has_room;
use super::refusal::Refusal;

const LONGEST_NAME: u64 = 253;

// Its HTTPS name has up to 14 bytes more in front: `_65535._https.`.
const LONGEST_ORIGIN: u64 = 239;

// Some bytes of the input: where they start and how many they are.
#[derive(Clone, Copy, Debug, PartialEq, Eq)]
pub struct Span {
    pub start: usize,
    pub len: usize,
}

// A number at most the limit; a larger one gets the refusal over.
#[tactic(auto, unfolding(crate::specs::Fields::at_most))]
pub fn read_at_most(s: &[u8], at: usize, limit: u64, over: Refusal) -> Result<(u64, usize), Refusal>
    ensures { shown result ≡ at_most limit (refusal_number over) (read_number s.now at) }
{
    match read_number(s, at) {
        Ok((v, next)) if v <= limit => Ok((v, next)),
        Ok(_) => Err(over),
        Err(e) => Err(e),
    }
}

// The len bytes from the place at on.
#[tactic(auto, unfolding(crate::specs::Fields::bytes_at))]
pub fn read_bytes(s: &[u8], at: usize, len: usize) -> Result<(Span, usize), Refusal>
    ensures { shown result ≡ bytes_at s.now len at }
{
    if !has_room(s.len(), at, len) {
        return Err(Refusal::Cut);
    }
    Ok((Span { start: at, len }, at + len))
}

// The length of a name: 0 is BadName, above the limit TooMany.
#[tactic(auto, unfolding(crate::specs::Fields::name_length))]
fn read_name_length(s: &[u8], at: usize, limit: u64) -> Result<(u64, usize), Refusal>
    ensures { shown result ≡ name_length limit (read_number s.now at) }
{
    let (n, next) = read_at_most(s, at, limit, Refusal::TooMany)?;
    if n == 0 {
        Err(Refusal::BadName)
    } else {
        Ok((n, next))
    }
}

// Whether the bytes from start up to end are a name.
fn name_between(s: &[u8], start: usize, end: usize) -> bool
    requires { (start ≤ end) × (end ≤ length s.now) }
    ensures { result ≡ name_ok (take (end - start) (drop start s.now)) }
{
    name_ok(&s[start..end])
}

// The len bytes from start on, which must be a name.
#[tactic(auto, unfolding(crate::specs::Fields::named, crate::specs::Fields::bytes_at))]
fn read_named(s: &[u8], start: usize, len: usize) -> Result<(Span, usize), Refusal>
    ensures { shown result ≡ named s.now len start }
{
    let (name, next) = read_bytes(s, start, len)?;
    if name_between(s, start, next) {
        Ok((name, next))
    } else {
        Err(Refusal::BadName)
    }
}

// A name: its length, at most the limit, then its bytes.
#[tactic(auto, unfolding(crate::specs::Fields::name_at))]
fn read_name_within(s: &[u8], at: usize, limit: u64) -> Result<(Span, usize), Refusal>
    ensures { shown result ≡ name_at s.now limit at }
{
    let (n, start) = read_name_length(s, at, limit)?;
    read_named(s, start, n as usize)
}

// Any name but the origin's.
pub fn read_name(s: &[u8], at: usize) -> Result<(Span, usize), Refusal>
    ensures { shown result ≡ name_at s.now longest_name at }
{
    read_name_within(s, at, LONGEST_NAME)
}

// The origin's name.
pub fn read_origin(s: &[u8], at: usize) -> Result<(Span, usize), Refusal>
    ensures { shown result ≡ name_at s.now longest_origin at }
{
    read_name_within(s, at, LONGEST_ORIGIN)
}
