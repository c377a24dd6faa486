// One look at the records of each kind: what the decisions need of them.
ghost use Rattle.std.specs.Prelude.{◌+◌, ◌<◌, ◌||◌, ◌≡◌, Some};
ghost use Rattle.starting.specs.Surveys.{sooner_of, tries_of, has_address, is_flying, is_due, asks_of, hints_of};
ghost use Rattle.starting.specs.Noting.{or_place, place_if, one_if, later_if, sooner_by, noted_attempt, no_kinds, with_kind, noted_query};

use records::queries::{Answer, Kind, Queries, Query, Refresh, is_answered};
use records::services::Services;
use state::attempts::{Attempt, Attempts, has_won, is_open};
use state::members::in_use;

// For each type of record, whether there is one.
#[derive(Clone, Copy)]
pub struct Kinds {
    pub https: bool,
    pub aaaa: bool,
    pub a: bool,
}

// Of the attempts: whether one succeeded, how many are in progress, the latest start among those, and the first of them.
#[derive(Clone, Copy)]
pub struct Tries {
    pub won: bool,
    pub active: u64,
    pub latest: Option<u64>,
    pub first: Option<usize>,
}

// Of the query records: which types were asked for and which of those are answered, whether a record or a refresh is unanswered, whether
// an answer has an address, the oldest answer, and the first record whose refresh is due.
#[derive(Clone, Copy)]
pub struct Asks {
    pub asked: Kinds,
    pub answered: Kinds,
    pub pending: bool,
    pub flying: bool,
    pub address: bool,
    pub oldest: Option<u64>,
    pub due: Option<usize>,
}

// Of the services: whether one has a hint of the family.
#[derive(Clone, Copy)]
pub struct Hinted {
    pub six: bool,
    pub four: bool,
}

pub fn either(a: bool, b: bool) -> bool
    ensures { result ≡ a || b }
{
    a || b
}

// The first of two places that is one.
fn or_else(p: Option<usize>, on: bool, i: usize) -> Option<usize>
    ensures { result ≡ or_place p (place_if on i) }
{
    p.or(on.then_some(i))
}

fn later(m: Option<u64>, on: bool, t: u64) -> Option<u64>
    ensures { result ≡ later_if m on t }
{
    if !on {
        return m;
    }
    match m {
        None => Some(t),
        Some(u) => Some(u.max(t)),
    }
}

fn sooner(m: Option<u64>, a: Answer) -> Option<u64>
    ensures { result ≡ sooner_by m a }
{
    match a {
        Answer::Pending => m,
        Answer::Failed(t) | Answer::Held(t, _) => Some(sooner_at(m, t)),
    }
}

fn sooner_at(m: Option<u64>, t: u64) -> u64
    ensures { Some result ≡ sooner_of t m }
{
    match m {
        None => t,
        Some(u) => u.min(t),
    }
}

// One attempt more in progress.
fn one_more(n: u64, on: bool) -> u64
    requires { n < 32 }
    ensures { result ≡ n + one_if on }
{
    if on { n + 1 } else { n }
}

#[tactic(auto, unfolding(crate::specs::Noting::noted_attempt))]
fn noted_attempt(t: Tries, a: Attempt, i: usize) -> Tries
    requires { t.active < 32 }
    ensures { result ≡ noted_attempt t a i }
{
    let s = a.state;
    let on = is_open(s);
    let latest = t.latest;
    let first = t.first;
    Tries {
        won: either(t.won, has_won(s)),
        active: one_more(t.active, on),
        latest: later(latest, on, a.started),
        first: or_else(first, on, i),
    }
}

pub fn tries_of(attempts: Attempts) -> Tries
    ensures { result ≡ tries_of attempts }
{
    let mut t = Tries {
        won: false,
        active: 0,
        latest: None,
        first: None,
    };
    for (i, &a) in in_use(&attempts.list, attempts.count).iter().enumerate() {
        t = noted_attempt(t, a, i);
    }
    t
}

fn no_kinds() -> Kinds
    ensures { result ≡ no_kinds }
{
    Kinds {
        https: false,
        aaaa: false,
        a: false,
    }
}

// The types with one more, if it is on.
fn with_kind(k: Kinds, kind: Kind, on: bool) -> Kinds
    ensures { result ≡ with_kind k kind on }
{
    match kind {
        Kind::Https => Kinds {
            https: either(k.https, on),
            aaaa: k.aaaa,
            a: k.a,
        },
        Kind::Aaaa => Kinds {
            https: k.https,
            aaaa: either(k.aaaa, on),
            a: k.a,
        },
        Kind::A => Kinds {
            https: k.https,
            aaaa: k.aaaa,
            a: either(k.a, on),
        },
    }
}

fn has_address(a: Answer) -> bool
    ensures { result ≡ has_address a }
{
    match a {
        Answer::Held(_, n) => 0 < n,
        Answer::Pending | Answer::Failed(_) => false,
    }
}

fn is_flying(r: Refresh) -> bool
    ensures { result ≡ is_flying r }
{
    match r {
        Refresh::InFlight(_) => true,
        Refresh::Idle | Refresh::Done => false,
    }
}

// A stale answer, a failed one too, is asked for anew once.
fn is_due(stale: bool, r: Refresh) -> bool
    ensures { result ≡ is_due stale r }
{
    match r {
        Refresh::Idle => stale,
        Refresh::InFlight(_) | Refresh::Done => false,
    }
}

#[tactic(auto, unfolding(crate::specs::Noting::noted_query))]
fn noted_query(s: Asks, q: Query, i: usize) -> Asks
    ensures { result ≡ noted_query s q i }
{
    let k = q.kind;
    let a = q.answer;
    let r = q.refresh;
    let done = is_answered(a);
    let asked = s.asked;
    let answered = s.answered;
    let oldest = s.oldest;
    let due = s.due;
    Asks {
        asked: with_kind(asked, k, true),
        answered: with_kind(answered, k, done),
        pending: either(s.pending, !done),
        flying: either(s.flying, is_flying(r)),
        address: either(s.address, has_address(a)),
        oldest: sooner(oldest, a),
        due: or_else(due, is_due(q.stale, r), i),
    }
}

pub fn asks_of(queries: Queries) -> Asks
    ensures { result ≡ asks_of queries }
{
    let mut s = Asks {
        asked: no_kinds(),
        answered: no_kinds(),
        pending: false,
        flying: false,
        address: false,
        oldest: None,
        due: None,
    };
    for (i, &q) in in_use(&queries.list, queries.count).iter().enumerate() {
        s = noted_query(s, q, i);
    }
    s
}

pub fn hints_of(services: Services) -> Hinted
    ensures { result ≡ hints_of services }
{
    let mut six = false;
    let mut four = false;
    for s in in_use(&services.list, services.count) {
        six = either(six, 0 < s.n6);
        four = either(four, 0 < s.n4);
    }
    Hinted { six, four }
}
