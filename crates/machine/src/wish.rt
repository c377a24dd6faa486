// What the rules call for, with no limit in it. "Order as `process_output_inner`".
ghost use Rattle.std.specs.Prelude.{◌≡◌};
ghost use Rattle.records.specs.Classes.{same_class};
ghost use Rattle.upcoming.specs.Alike.{alike_endpoints};
ghost use Rattle.upcoming.specs.Next.{next_retry, next_endpoint};
ghost use Rattle.upcoming.specs.Wanted.{wanted_by};
ghost use Rattle.starting.specs.Starting.{resolution_left, attempt_left};
ghost use Rattle.machine.specs.Output.{end_wish, reason_of, last_wish, timer_wish, rest_wish, gate, has_others, look_of, looks, if_looked, looks_on, query_found, retry_found, attempt_found, other_found, found_by, next_origin, query_wish, wish_from};

use records::endpoints::Endpoint;
use records::names::SameNames;
use records::queries::{Answers, Kind, Queries};
use records::rules::{Alts, Mode, Rules, Timing};
use records::services::Services;
use starting::pace::{attempt_left, may_start, resolution_left};
use starting::surveys::{Asks, Hinted, Tries};
use state::Machine;
use state::attempts::{Attempts, Retries};
use upcoming::alike::Alike;
use upcoming::next::{Next, next_endpoint, next_retry};
use upcoming::wanted::{Wanted, next_query, origin_wanted};

// `FailureReason`
#[derive(Clone, Copy)]
pub enum Reason {
    Dns,
    Connection,
}

// Records and attempts by place, names by place.
#[derive(Clone, Copy)]
pub enum Wish {
    Cancel(usize),
    Succeeded,
    Retry(Endpoint),
    Attempt(Endpoint),
    Query(Kind, u8),
    Refresh(usize),
    AttemptTimer(u64),
    ResolutionTimer(u64),
    Failed(Reason),
    Waiting,
}

// "cancel in list order, then Succeeded on every call"
fn end_wish(tries: Tries) -> Wish
    ensures { result ≡ end_wish tries.first }
{
    match tries.first {
        Some(p) => Wish::Cancel(p),
        None => Wish::Succeeded,
    }
}

// "connection if any attempt was made, else DNS"
#[tactic(auto, unfolding(crate::specs::Output::reason_of))]
fn reason_of(count: usize) -> Reason
    ensures { result ≡ reason_of count }
{
    if 0 < count {
        return Reason::Connection;
    }
    Reason::Dns
}

// (H) "Failed exactly if no query, refresh or attempt is unanswered".
#[tactic(auto, unfolding(crate::specs::Output::last_wish))]
fn last_wish(tries: Tries, asks: Asks, count: usize) -> Wish
    ensures { result ≡ last_wish tries asks count }
{
    let waits = asks.pending || asks.flying || 0 < tries.active;
    if waits {
        return Wish::Waiting;
    }
    Wish::Failed(reason_of(count))
}

// "A timer of 0 isn't given."
#[tactic(auto, unfolding(crate::specs::Output::timer_wish))]
fn timer_wish(timing: Timing, tries: Tries, asks: Asks, count: usize, now: u64) -> Wish
    ensures { result ≡ timer_wish (attempt_left timing tries now) (resolution_left timing asks now) (last_wish tries asks count) }
{
    let a = attempt_left(timing, tries, now);
    if 0 < a {
        return Wish::AttemptTimer(a);
    }
    let r = resolution_left(timing, asks, now);
    if 0 < r {
        return Wish::ResolutionTimer(r);
    }
    last_wish(tries, asks, count)
}

// Refreshes in record order, then timers, Failed, Waiting.
fn rest_wish(timing: Timing, tries: Tries, asks: Asks, count: usize, now: u64) -> Wish
    ensures { result ≡ rest_wish timing tries asks count now }
{
    match asks.due {
        Some(p) => Wish::Refresh(p),
        None => timer_wish(timing, tries, asks, count, now),
    }
}

// What is looked for among the records: retries, the next endpoint, queries beside the origin's.
#[derive(Clone, Copy)]
pub struct Look {
    pub retry: bool,
    pub next: bool,
    pub query: bool,
}

// What was found, in this order.
#[derive(Clone, Copy)]
pub enum Found {
    Nothing,
    Retry(Endpoint),
    Attempt(Endpoint),
    Query(Kind, u8),
}

// Whether the gate is open: no attempt in progress is within the delay, and attempts may start.
#[tactic(auto, unfolding(crate::specs::Output::gate))]
fn is_open_gate(
    rules: Rules,
    timing: Timing,
    tries: Tries,
    asks: Asks,
    hinted: Hinted,
    now: u64,
) -> bool
    ensures { result ≡ gate rules timing tries asks hinted now }
{
    if 0 < attempt_left(timing, tries, now) {
        return false;
    }
    may_start(rules, timing, asks, hinted, now)
}

fn has_others(services: usize, alts: usize) -> bool
    ensures { result ≡ has_others services alts }
{
    0 < services || 0 < alts
}

// What to look for, with so many retries, services and alternative services.
#[tactic(auto, unfolding(crate::specs::Output::look_of))]
pub fn look_of(
    rules: Rules,
    timing: Timing,
    tries: Tries,
    asks: Asks,
    hinted: Hinted,
    retries: usize,
    services: usize,
    alts: usize,
    now: u64,
) -> Look
    ensures { result ≡ look_of rules timing tries asks hinted retries services alts now }
{
    if tries.won {
        return Look {
            retry: false,
            next: false,
            query: false,
        };
    }
    Look {
        retry: 0 < retries,
        next: is_open_gate(rules, timing, tries, asks, hinted, now),
        query: has_others(services, alts),
    }
}

pub fn looks(l: Look) -> bool
    ensures { result ≡ looks l }
{
    l.retry || l.next || l.query
}

fn found_query(w: Wanted) -> Found
    ensures { result ≡ query_found w }
{
    match w {
        None => Found::Nothing,
        Some((k, p)) => Found::Query(k, p),
    }
}

// The next retry, and the next endpoint, where they are looked for. The parts go by value here and below: rules 4.14 and 6.1 rest on
// these calls, whose promises speak of each part (docs/RULES.md); `found_on` takes the machine.
pub fn retry_next(on: bool, attempts: Attempts, retries: Retries, alike: Alike) -> Next
    ensures { result ≡ if_looked on (next_retry (alike_endpoints alike.hosts alike.echs) attempts retries) }
{
    if on {
        return next_retry(attempts, retries, alike);
    }
    None
}

pub fn endpoint_next(
    on: bool,
    rules: Rules,
    alts: Alts,
    queries: Queries,
    answers: Answers,
    services: Services,
    attempts: Attempts,
    alike: Alike,
) -> Next
    ensures { result ≡ if_looked on (next_endpoint (alike_endpoints alike.hosts alike.echs) rules alts queries answers services attempts (same_class alike.names)) }
{
    if on {
        return next_endpoint(rules, alts, queries, answers, services, attempts, alike);
    }
    None
}

fn query_found(
    on: bool,
    rules: Rules,
    alts: Alts,
    queries: Queries,
    services: Services,
    asks: Asks,
    same: SameNames,
) -> Found
    ensures { result ≡ other_found on (wanted_by asks.asked rules alts queries services (same_class same)) }
{
    if on {
        return found_query(next_query(rules, alts, queries, services, asks, same));
    }
    Found::Nothing
}

// Whether the next endpoint is looked for: not where a retry was found.
pub fn looks_on(on: bool, retry: Next) -> bool
    ensures { result ≡ looks_on on retry }
{
    match retry {
        None => on,
        Some(_) => false,
    }
}

// The first that there is: a retry, the next endpoint, a query, which is looked for only then.
pub fn first_found(
    retry: Next,
    next: Next,
    on: bool,
    rules: Rules,
    alts: Alts,
    queries: Queries,
    services: Services,
    asks: Asks,
    same: SameNames,
) -> Found
    ensures { result ≡ retry_found retry (attempt_found next (other_found on (wanted_by asks.asked rules alts queries services (same_class same)))) }
{
    match (retry, next) {
        (Some(e), _) => Found::Retry(e),
        (None, Some(e)) => Found::Attempt(e),
        (None, None) => query_found(on, rules, alts, queries, services, asks, same),
    }
}

// What is found, in that order.
#[tactic(auto, using(crate::proofs::Looking::looking))]
pub fn found_of(
    look: Look,
    rules: Rules,
    alts: Alts,
    queries: Queries,
    answers: Answers,
    services: Services,
    attempts: Attempts,
    retries: Retries,
    asks: Asks,
    alike: Alike,
) -> Found
    ensures { result ≡ found_by (same_class alike.names) (alike_endpoints alike.hosts alike.echs) look asks.asked rules alts queries answers services attempts retries }
{
    let retry = retry_next(look.retry, attempts, retries, alike);
    let on = looks_on(look.next, retry);
    let next = endpoint_next(on, rules, alts, queries, answers, services, attempts, alike);
    first_found(
        retry,
        next,
        look.query,
        rules,
        alts,
        queries,
        services,
        asks,
        alike.names,
    )
}

// The same on a machine that is lent. Where nothing is looked for nothing is found. Not made of the one above, to which each part would be
// copied once more.
#[tactic(auto, using(crate::proofs::Looking::looking))]
pub fn found_on(m: &Machine, alike: &Alike, look: Look, asks: Asks) -> Found
    ensures { result ≡ found_by (same_class alike.now.names) (alike_endpoints alike.now.hosts alike.now.echs) look asks.asked m.now.rules m.now.alts m.now.queries m.now.answers m.now.services m.now.attempts m.now.retries }
{
    if !looks(look) {
        return Found::Nothing;
    }
    let retry = retry_next(look.retry, m.attempts, m.retries, *alike);
    let on = looks_on(look.next, retry);
    let next = endpoint_next(
        on, m.rules, m.alts, m.queries, m.answers, m.services, m.attempts, *alike,
    );
    first_found(
        retry,
        next,
        look.query,
        m.rules,
        m.alts,
        m.queries,
        m.services,
        asks,
        alike.names,
    )
}

// The query for the origin; mode `Name` wants none.
#[tactic(auto, unfolding(crate::specs::Output::next_origin))]
fn next_origin(rules: Rules, asks: Asks) -> Wanted
    ensures { result ≡ next_origin rules asks }
{
    match rules.mode {
        Mode::Ip | Mode::NameWithHttpsRr => origin_wanted(rules, asks.asked),
        Mode::Name => None,
    }
}

// The origin's queries, and what comes after them.
fn origin_wish(
    rules: Rules,
    timing: Timing,
    tries: Tries,
    asks: Asks,
    count: usize,
    now: u64,
) -> Wish
    ensures { result ≡ query_wish (next_origin rules asks) (rest_wish timing tries asks count now) }
{
    match next_origin(rules, asks) {
        None => rest_wish(timing, tries, asks, count, now),
        Some((k, p)) => Wish::Query(k, p),
    }
}

// What the rules call for: of attempts and records what the surveys say, what was found, and how many attempts there are.
#[tactic(auto, unfolding(crate::specs::Output::wish_from))]
pub fn wish_of(
    rules: Rules,
    timing: Timing,
    tries: Tries,
    asks: Asks,
    found: Found,
    count: usize,
    now: u64,
) -> Wish
    ensures { result ≡ wish_from rules timing tries asks found count now }
{
    if tries.won {
        return end_wish(tries);
    }
    match found {
        Found::Retry(e) => Wish::Retry(e),
        Found::Attempt(e) => Wish::Attempt(e),
        Found::Query(k, p) => Wish::Query(k, p),
        Found::Nothing => origin_wish(rules, timing, tries, asks, count, now),
    }
}
