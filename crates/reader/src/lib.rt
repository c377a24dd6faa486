#![tactic(auto)]
// Answers read back (rule B.13): what each says, and where its bytes stand.
ghost use Rattle.std.specs.Prelude.{◌≡◌};
ghost use Rattle.numbers.specs.Shown.{shown};
ghost use Rattle.reader.specs.Reading.{kind_of, rank_of, reason_of, table_of, sized_at, query_at, four_at, six_at, host_at, target_at, ech_at, port_at, endpoint_at, attempt_at, most_of, rest_at, kind_at, answer_at};

use machine::grant::Table;
use machine::wish::Reason;
use numbers::field::{Span, read_at_most, read_bytes};
use numbers::refusal::Refusal;
use records::endpoints::Rank;
use records::queries::Kind;

// Where a target's bytes stand: the 4 or 16 of an address, with its scope, or those of a host.
#[derive(Clone, Copy)]
pub enum TargetSpan {
    V4(Span),
    V6(Span, u32),
    Named(Span),
}

#[derive(Clone, Copy)]
pub struct EndpointSpan {
    pub target: TargetSpan,
    pub port: u16,
    pub rank: Rank,
    // Where its ECH bytes stand, if it has any.
    pub ech: Option<Span>,
}

// An answer: the cases of `Output`, with bytes where they stand, and the answer to an input.
#[derive(Clone, Copy)]
pub enum Answer {
    Waiting,
    // id, type, allow_stale, name
    Query(u64, Kind, bool, Span),
    Timer(u64),
    // id, whether it is an ECH retry
    Attempt(u64, bool, EndpointSpan),
    Cancel(u64),
    Succeeded,
    Failed(Reason),
    Full(Table),
    // 0 for an input that was accepted, else the refusal's number: what `input` of answers/Answers says of it
    Taken(u64),
}

// A value with the place after its last byte. Bytes and a place stay two parameters, as in `numbers`: every promise speaks of both.
type Read<T> = Result<(T, usize), Refusal>;

// The case of each number (rules B.9 and B.11), which its reader has found in range: no number is refused here, so no `TryFrom`.
#[tactic(auto, unfolding(crate::specs::Reading::kind_of))]
fn kind_of(n: u64) -> Kind
    ensures { result ≡ kind_of n }
{
    match n {
        0 => Kind::Https,
        1 => Kind::Aaaa,
        _ => Kind::A,
    }
}

#[tactic(auto, unfolding(crate::specs::Reading::rank_of))]
fn rank_of(n: u64) -> Rank
    ensures { result ≡ rank_of n }
{
    match n {
        0 => Rank::H3,
        1 => Rank::H2OrH1,
        2 => Rank::H2,
        _ => Rank::H1,
    }
}

#[tactic(auto, unfolding(crate::specs::Reading::reason_of))]
fn reason_of(n: u64) -> Reason
    ensures { result ≡ reason_of n }
{
    match n {
        0 => Reason::Dns,
        _ => Reason::Connection,
    }
}

#[tactic(auto, unfolding(crate::specs::Reading::table_of))]
fn table_of(n: u64) -> Table
    ensures { result ≡ table_of n }
{
    match n {
        0 => Table::Queries,
        _ => Table::Attempts,
    }
}

// Bytes after their length, which is at most a name's.
#[tactic(auto, unfolding(crate::specs::Reading::sized_at))]
fn read_sized(s: &[u8], at: usize) -> Read<Span>
    ensures { shown result ≡ sized_at s.now at }
{
    let (n, next) = read_at_most(s, at, 253, Refusal::TooMany)?;
    read_bytes(s, next, n as usize)
}

// A query after its id: type, allow_stale, name.
#[tactic(auto, unfolding(crate::specs::Reading::query_at))]
fn read_query(s: &[u8], at: usize, id: u64) -> Read<Answer>
    ensures { shown result ≡ query_at s.now id at }
{
    let (kind, next) = read_at_most(s, at, 2, Refusal::OutOfRange)?;
    let (stale, after) = read_at_most(s, next, 1, Refusal::OutOfRange)?;
    let (name, end) = read_sized(s, after)?;
    Ok((Answer::Query(id, kind_of(kind), stale == 1, name), end))
}

#[tactic(auto, unfolding(crate::specs::Reading::four_at))]
fn read_four(s: &[u8], at: usize) -> Read<TargetSpan>
    ensures { shown result ≡ four_at s.now at }
{
    let (address, end) = read_bytes(s, at, 4)?;
    Ok((TargetSpan::V4(address), end))
}

#[tactic(auto, unfolding(crate::specs::Reading::six_at, numbers::specs::Fields::at_most))]
fn read_six(s: &[u8], at: usize) -> Read<TargetSpan>
    ensures { shown result ≡ six_at s.now at }
{
    let (address, next) = read_bytes(s, at, 16)?;
    let (scope, end) = read_at_most(s, next, 4294967295, Refusal::OutOfRange)?;
    Ok((TargetSpan::V6(address, scope as u32), end))
}

#[tactic(auto, unfolding(crate::specs::Reading::host_at))]
fn read_host(s: &[u8], at: usize) -> Read<TargetSpan>
    ensures { shown result ≡ host_at s.now at }
{
    let (name, end) = read_sized(s, at)?;
    Ok((TargetSpan::Named(name), end))
}

#[tactic(auto, unfolding(crate::specs::Reading::target_at, crate::specs::Reading::target_by))]
fn read_target(s: &[u8], at: usize) -> Read<TargetSpan>
    ensures { shown result ≡ target_at s.now at }
{
    let (kind, next) = read_at_most(s, at, 2, Refusal::OutOfRange)?;
    match kind {
        0 => read_four(s, next),
        1 => read_six(s, next),
        _ => read_host(s, next),
    }
}

#[tactic(auto, unfolding(crate::specs::Reading::ech_at, crate::specs::Reading::sealed_by))]
fn read_ech(s: &[u8], at: usize) -> Read<Option<Span>>
    ensures { shown result ≡ ech_at s.now at }
{
    let (sealed, next) = read_at_most(s, at, 513, Refusal::TooMany)?;
    if sealed == 0 {
        return Ok((None, next));
    }
    let len = sealed - 1;
    let (ech, end) = read_bytes(s, next, len as usize)?;
    Ok((Some(ech), end))
}

// Port and ECH of an endpoint.
#[tactic(auto, unfolding(crate::specs::Reading::port_at, numbers::specs::Fields::at_most))]
fn read_port(s: &[u8], at: usize, rank: u64, target: TargetSpan) -> Read<EndpointSpan>
    ensures { shown result ≡ port_at s.now rank target at }
{
    let (port, next) = read_at_most(s, at, 65535, Refusal::OutOfRange)?;
    let (ech, end) = read_ech(s, next)?;
    let endpoint = EndpointSpan {
        target,
        port: port as u16,
        rank: rank_of(rank),
        ech,
    };
    Ok((endpoint, end))
}

#[tactic(auto, unfolding(crate::specs::Reading::endpoint_at))]
fn read_endpoint(s: &[u8], at: usize) -> Read<EndpointSpan>
    ensures { shown result ≡ endpoint_at s.now at }
{
    let (rank, next) = read_at_most(s, at, 3, Refusal::OutOfRange)?;
    let (target, after) = read_target(s, next)?;
    read_port(s, after, rank, target)
}

// An attempt after its id: retry flag, rank, target, port, ECH.
#[tactic(auto, unfolding(crate::specs::Reading::attempt_at))]
fn read_attempt(s: &[u8], at: usize, id: u64) -> Read<Answer>
    ensures { shown result ≡ attempt_at s.now id at }
{
    let (retry, next) = read_at_most(s, at, 1, Refusal::OutOfRange)?;
    let (endpoint, end) = read_endpoint(s, next)?;
    Ok((Answer::Attempt(id, retry == 1, endpoint), end))
}

// The most that the number after an answer's kind can be: an id or a time may be any.
#[tactic(auto, unfolding(crate::specs::Reading::most_of))]
fn most_of(kind: u64) -> u64
    ensures { result ≡ most_of kind }
{
    match kind {
        6 | 7 => 1,
        8 => 13,
        _ => u64::MAX,
    }
}

// An answer after its kind and the number n that follows it.
#[tactic(auto, unfolding(crate::specs::Reading::rest_at))]
fn read_rest(s: &[u8], at: usize, kind: u64, n: u64) -> Read<Answer>
    ensures { shown result ≡ rest_at s.now kind n at }
{
    match kind {
        1 => read_query(s, at, n),
        2 => Ok((Answer::Timer(n), at)),
        3 => read_attempt(s, at, n),
        4 => Ok((Answer::Cancel(n), at)),
        6 => Ok((Answer::Failed(reason_of(n)), at)),
        7 => Ok((Answer::Full(table_of(n)), at)),
        _ => Ok((Answer::Taken(n), at)),
    }
}

// An answer after its kind.
#[tactic(auto, unfolding(crate::specs::Reading::kind_at))]
fn read_kind(s: &[u8], at: usize, kind: u64) -> Read<Answer>
    ensures { shown result ≡ kind_at s.now kind at }
{
    match kind {
        0 => Ok((Answer::Waiting, at)),
        5 => Ok((Answer::Succeeded, at)),
        _ => {
            let (n, next) = read_at_most(s, at, most_of(kind), Refusal::OutOfRange)?;
            read_rest(s, next, kind, n)
        }
    }
}

// The answer that starts at the place at, and the place after its last byte.
#[tactic(auto, unfolding(crate::specs::Reading::answer_at))]
pub fn answer_at(s: &[u8], at: usize) -> Result<(Answer, usize), Refusal>
    ensures { shown result ≡ answer_at s.now at }
{
    let (kind, next) = read_at_most(s, at, 8, Refusal::OutOfRange)?;
    read_kind(s, next, kind)
}
