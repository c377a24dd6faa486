// What is given for a wish. Full stands where there is no room for a query or an attempt, and changes nothing.
ghost use Rattle.std.specs.Prelude.{◌≡◌};
ghost use Rattle.machine.specs.Output.{only, new_query, refreshed, query_grant, refresh_grant, attempt_grant, cancel_grant, wish_query, wish_attempt, grant_of};

use super::wish::{Reason, Wish};
use pacing::id::IdGenerator;
use records::endpoints::Endpoint;
use records::queries::{Answer, Kind, Query, Refresh};
use state::attempts::{Attempt, State, new_attempt, with_state};
use state::changes::CallChange;

// What there is no more room for.
#[derive(Clone, Copy)]
pub enum Table {
    Queries,
    Attempts,
}

// What a call is answered; names and ECH bytes by place.
#[derive(Clone, Copy)]
pub enum Output {
    Waiting,
    // id, type, allow_stale, name
    Query(u64, Kind, bool, u8),
    Timer(u64),
    // id, whether it is an ECH retry
    Attempt(u64, bool, Endpoint),
    Cancel(u64),
    Succeeded,
    Failed(Reason),
    Full(Table),
}

// An answer, and what it changes.
#[derive(Clone, Copy)]
pub struct Turn {
    pub output: Output,
    pub change: CallChange,
}

fn only(output: Output) -> Turn
    ensures { result ≡ only output }
{
    Turn {
        output,
        change: CallChange::Nothing,
    }
}

// A record before its answer; its first query allows a stale one.
fn new_query(id: u64, kind: Kind, name: u8) -> Query
    ensures { result ≡ new_query id kind name }
{
    Query {
        id,
        kind,
        name,
        stale: false,
        answer: Answer::Pending,
        refresh: Refresh::Idle,
    }
}

// The record with its refresh in flight.
fn refreshed(q: Query, id: u64) -> Query
    ensures { result ≡ refreshed q id }
{
    Query {
        refresh: Refresh::InFlight(id),
        ..q
    }
}

#[tactic(auto, unfolding(crate::specs::Output::query_grant))]
fn query_grant(count: usize, id: u64, kind: Kind, name: u8) -> Turn
    ensures { result ≡ query_grant count id kind name }
{
    if 16 <= count {
        return only(Output::Full(Table::Queries));
    }
    Turn {
        output: Output::Query(id, kind, true, name),
        change: CallChange::Asks(count, new_query(id, kind, name)),
    }
}

// A refresh of the record q at p. It forbids a stale answer, and needs no record.
fn refresh_grant(q: Query, id: u64, p: usize) -> Turn
    ensures { result ≡ refresh_grant q id p }
{
    Turn {
        output: Output::Query(id, q.kind, false, q.name),
        change: CallChange::Asks(p, refreshed(q, id)),
    }
}

#[tactic(auto, unfolding(crate::specs::Output::attempt_grant))]
fn attempt_grant(count: usize, id: u64, retry: bool, e: Endpoint, now: u64) -> Turn
    ensures { result ≡ attempt_grant count id retry e now }
{
    if 32 <= count {
        return only(Output::Full(Table::Attempts));
    }
    Turn {
        output: Output::Attempt(id, retry, e),
        change: CallChange::Tries(count, new_attempt(id, e, now, retry)),
    }
}

fn cancel_grant(a: Attempt, p: usize) -> Turn
    ensures { result ≡ cancel_grant a p }
{
    Turn {
        output: Output::Cancel(a.id),
        change: CallChange::Cancels(p, with_state(a, State::Cancelled)),
    }
}

// The place of the record, and of the attempt, that a wish is about; 0 where it is about none.
pub fn wish_query(w: Wish) -> usize
    ensures { result ≡ wish_query w }
{
    match w {
        Wish::Refresh(p) => p,
        _ => 0,
    }
}

pub fn wish_attempt(w: Wish) -> usize
    ensures { result ≡ wish_attempt w }
{
    match w {
        Wish::Cancel(p) => p,
        _ => 0,
    }
}

// What is given, with so many records and attempts; q and a are those that the wish is about. An id is used exactly by a query, a refresh and
// an attempt.
#[tactic(auto, unfolding(crate::specs::Output::grant_of))]
pub fn grant_of(
    asked: usize,
    tried: usize,
    q: Query,
    a: Attempt,
    ids: IdGenerator,
    w: Wish,
    now: u64,
) -> Turn
    ensures { result ≡ grant_of asked tried q a ids w now }
{
    let issued = ids.next_id();
    let id = issued.id;
    match w {
        Wish::Cancel(p) => cancel_grant(a, p),
        Wish::Succeeded => only(Output::Succeeded),
        Wish::Retry(e) => attempt_grant(tried, id, true, e, now),
        Wish::Attempt(e) => attempt_grant(tried, id, false, e, now),
        Wish::Query(k, p) => query_grant(asked, id, k, p),
        Wish::Refresh(p) => refresh_grant(q, id, p),
        Wish::AttemptTimer(n) => only(Output::Timer(n)),
        Wish::ResolutionTimer(n) => only(Output::Timer(n)),
        Wish::Failed(r) => only(Output::Failed(r)),
        Wish::Waiting => only(Output::Waiting),
    }
}
