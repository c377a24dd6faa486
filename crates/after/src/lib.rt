#![tactic(auto)]
// Each part of the machine after a change. A change that isn't of the part leaves it.
ghost use Rattle.std.specs.Prelude.{◌<◌, ◌≡◌};
ghost use Rattle.state.specs.Changes.{first_name, first_ech};
ghost use Rattle.after.specs.After.{counted, put_query, queries_called, queries_fed, put_attempt, attempts_called, attempts_fed, ids_called, put_retry, retries_fed, put_addresses, answers_fed};
ghost use Rattle.after.specs.After.{ech_place, placed_at, placed_services, services_fed, put_names, names_fed, put_echs, put_ech, echs_fed, are_zero, bare_names, bare_echs, bare, called, fed};

use pacing::id::IdGenerator;
use records::names::{Ech, EchPlace, Echs, Name, Names};
use records::queries::{Addresses, Answers, Queries, Query};
use records::services::{Service, Services, no_services};
use state::Machine;
use state::attempts::{Attempt, Attempts, Retries};
use state::changes::{CallChange, InputChange, Round, first_ech, first_name};

// What an HTTPS answer brings beside its services: for each its name, and its ECH bytes where it has them.
#[derive(Clone, Copy)]
pub struct TargetNames {
    pub list: [Name; 4],
}

#[derive(Clone, Copy)]
pub struct TargetEchs {
    pub list: [Ech; 4],
}

// How many a table has, once place p holds something.
fn counted(n: usize, p: usize) -> usize
    requires { p < 32 }
    ensures { result ≡ counted n p }
{
    n.max(p + 1)
}

// Something stored in its table. A place outside it, which no change has, stores nothing. This stands twice, and so do names and ECH bytes
// below: the tables are types of their own, and what is common to them is a line.
#[tactic(auto, unfolding(crate::specs::After::put_query))]
fn put_query(queries: &mut Queries, p: usize, q: Query)
    ensures { queries.new ≡ put_query queries.old p q }
{
    if p < 16 {
        queries.list[p] = q;
        queries.count = counted(queries.count, p);
    }
}

#[tactic(auto, unfolding(crate::specs::After::put_attempt))]
fn put_attempt(attempts: &mut Attempts, p: usize, a: Attempt)
    ensures { attempts.new ≡ put_attempt attempts.old p a }
{
    if p < 32 {
        attempts.list[p] = a;
        attempts.count = counted(attempts.count, p);
    }
}

// The retry that is number r came for attempt p.
#[tactic(auto, unfolding(crate::specs::After::put_retry))]
fn store_retry(retries: &mut Retries, r: usize, p: usize)
    ensures { retries.new ≡ put_retry retries.old r p }
{
    if r < 32 && p < 32 {
        retries.list[r] = p as u8;
        retries.count = r + 1;
    }
}

#[tactic(auto, unfolding(crate::specs::After::put_addresses))]
fn put_addresses(answers: &mut Answers, p: usize, l: &Addresses)
    ensures { answers.new ≡ put_addresses answers.old p l.now }
{
    if p < 16 {
        answers.list[p] = *l;
    }
}

// Four names, and four ECH configurations, at the places of their round.
#[tactic(auto, unfolding(crate::specs::After::put_names), using(crate::proofs::Filling::first_name_room, crate::proofs::Filling::part_stored))]
fn put_names(names: &mut Names, round: Round, t: &TargetNames)
    ensures { names.new ≡ put_names names.old round t.now }
{
    let first = first_name(round) as usize;
    names.list[first..first + 4].copy_from_slice(&t.list);
}

#[tactic(auto, unfolding(crate::specs::After::put_echs), using(crate::proofs::Filling::first_ech_room, crate::proofs::Filling::part_stored))]
fn put_echs(echs: &mut Echs, round: Round, t: &TargetEchs)
    ensures { echs.new ≡ put_echs echs.old round t.now }
{
    let first = first_ech(round) as usize;
    echs.list[first..first + 4].copy_from_slice(&t.list);
}

// The retry that came for attempt p.
#[tactic(auto, unfolding(crate::specs::After::put_ech))]
fn put_ech(echs: &mut Echs, p: usize, e: &Ech)
    ensures { echs.new ≡ put_ech echs.old p e.now }
{
    if p < 32 {
        echs.list[8 + p] = *e;
    }
}

// What a call changes: ids, query records and attempts at most.
pub fn call(m: &mut Machine, change: CallChange)
    ensures { m.new ≡ called m.old change }
{
    match change {
        CallChange::Nothing => {}
        CallChange::Asks(p, q) => {
            let _ = m.ids.take();
            put_query(&mut m.queries, p, q);
        }
        CallChange::Tries(p, a) => {
            let _ = m.ids.take();
            put_attempt(&mut m.attempts, p, a);
        }
        CallChange::Cancels(p, a) => put_attempt(&mut m.attempts, p, a),
    }
}

// What an input changes, with what came beside it: the addresses of an answer; the services, names and ECH bytes of an HTTPS answer, where
// an ECH place among the services only says that there are bytes; the bytes of an ECH retry.
pub fn feed(
    m: &mut Machine,
    change: InputChange,
    addresses: &Addresses,
    offered: &Services,
    names: &TargetNames,
    echs: &TargetEchs,
    retry: &Ech,
)
    ensures { m.new ≡ fed m.old change addresses.now offered.now names.now echs.now retry.now }
{
    match change {
        InputChange::Nothing => {}
        InputChange::Ends(p, a) => put_attempt(&mut m.attempts, p, a),
        InputChange::Retries(p, a, r) => {
            put_attempt(&mut m.attempts, p, a);
            store_retry(&mut m.retries, r, p);
            put_ech(&mut m.echs, p, retry);
        }
        InputChange::Holds(p, q) => {
            put_query(&mut m.queries, p, q);
            put_addresses(&mut m.answers, p, addresses);
        }
        InputChange::Empties(p, q) => {
            put_query(&mut m.queries, p, q);
            m.services = no_services();
        }
        InputChange::Offers(p, q, round) => {
            put_query(&mut m.queries, p, q);
            m.services = placed_services(*offered, round);
            put_names(&mut m.names, round, names);
            put_echs(&mut m.echs, round, echs);
        }
    }
}

fn ech_place(e: EchPlace, p: u8) -> EchPlace
    ensures { result ≡ ech_place e p }
{
    match e {
        EchPlace::Without => EchPlace::Without,
        EchPlace::At(_) => EchPlace::At(p),
    }
}

// Service i of an answer, with the places of its round.
fn placed(s: Service, i: u8, round: Round) -> Service
    requires { i < 4 }
    ensures { result ≡ placed_at round i s }
{
    Service {
        name: first_name(round) + i,
        ech: ech_place(s.ech, first_ech(round) + i),
        ..s
    }
}

// The services of an answer, each with the places of its round.
#[tactic(auto, using(crate::proofs::Filling::placed_end))]
pub fn placed_services(offered: Services, round: Round) -> Services
    ensures { result ≡ placed_services offered round }
{
    let mut list = no_services().list;
    let count = offered.count.min(4);
    for i in 0..count {
        list[i] = placed(offered.list[i], i as u8, round);
    }
    Services { count, list }
}

// `offered` are the services of the answer; an ECH place among them only says that there are bytes.
pub fn services_fed(services: Services, change: InputChange, offered: Services) -> Services
    ensures { result ≡ services_fed services change offered }
{
    match change {
        InputChange::Empties(_, _) => no_services(),
        InputChange::Offers(_, _, round) => placed_services(offered, round),
        _ => services,
    }
}

// The same of one part at a time, by value.
pub fn queries_called(queries: Queries, change: CallChange) -> Queries
    ensures { result ≡ queries_called queries change }
{
    let mut out = queries;
    match change {
        CallChange::Asks(p, q) => put_query(&mut out, p, q),
        _ => {}
    }
    out
}

pub fn queries_fed(queries: Queries, change: InputChange) -> Queries
    ensures { result ≡ queries_fed queries change }
{
    let mut out = queries;
    match change {
        InputChange::Holds(p, q) | InputChange::Empties(p, q) => put_query(&mut out, p, q),
        InputChange::Offers(p, q, _) => put_query(&mut out, p, q),
        _ => {}
    }
    out
}

pub fn attempts_called(attempts: Attempts, change: CallChange) -> Attempts
    ensures { result ≡ attempts_called attempts change }
{
    let mut out = attempts;
    match change {
        CallChange::Tries(p, a) | CallChange::Cancels(p, a) => put_attempt(&mut out, p, a),
        _ => {}
    }
    out
}

pub fn attempts_fed(attempts: Attempts, change: InputChange) -> Attempts
    ensures { result ≡ attempts_fed attempts change }
{
    let mut out = attempts;
    match change {
        InputChange::Ends(p, a) | InputChange::Retries(p, a, _) => put_attempt(&mut out, p, a),
        _ => {}
    }
    out
}

pub fn ids_called(ids: IdGenerator, change: CallChange) -> IdGenerator
    ensures { result ≡ ids_called ids change }
{
    match change {
        CallChange::Asks(_, _) | CallChange::Tries(_, _) => ids.next_id().ids,
        _ => ids,
    }
}

pub fn put_retry(retries: Retries, r: usize, p: usize) -> Retries
    ensures { result ≡ put_retry retries r p }
{
    let mut out = retries;
    store_retry(&mut out, r, p);
    out
}

pub fn retries_fed(retries: Retries, change: InputChange) -> Retries
    ensures { result ≡ retries_fed retries change }
{
    let mut out = retries;
    match change {
        InputChange::Retries(p, _, r) => store_retry(&mut out, r, p),
        _ => {}
    }
    out
}

// `addresses` are those of the answer.
pub fn answers_fed(answers: Answers, change: InputChange, addresses: Addresses) -> Answers
    ensures { result ≡ answers_fed answers change addresses }
{
    let mut out = answers;
    match change {
        InputChange::Holds(p, _) => put_addresses(&mut out, p, &addresses),
        _ => {}
    }
    out
}

pub fn names_fed(names: Names, change: InputChange, targets: TargetNames) -> Names
    ensures { result ≡ names_fed names change targets }
{
    let mut out = names;
    match change {
        InputChange::Offers(_, _, round) => put_names(&mut out, round, &targets),
        _ => {}
    }
    out
}

pub fn echs_fed(echs: Echs, change: InputChange, targets: TargetEchs, retry: Ech) -> Echs
    ensures { result ≡ echs_fed echs change targets retry }
{
    let mut out = echs;
    match change {
        InputChange::Retries(p, _, _) => put_ech(&mut out, p, &retry),
        InputChange::Offers(_, _, round) => put_echs(&mut out, round, &targets),
        _ => {}
    }
    out
}

#[tactic(auto, unfolding(crate::specs::After::are_zero))]
fn are_zero(a: usize, b: usize, c: usize, d: usize) -> bool
    ensures { result ≡ are_zero a b c d }
{
    a == 0 && b == 0 && c == 0 && d == 0
}

#[tactic(auto, unfolding(crate::specs::After::bare_names, records::specs::Names::name_at))]
fn are_names_bare(names: &Names, round: Round) -> bool
    ensures { result ≡ bare_names names.now (first_name round) }
{
    match round {
        Round::First => are_zero(
            names.list[5].len,
            names.list[6].len,
            names.list[7].len,
            names.list[8].len,
        ),
        Round::Second => are_zero(
            names.list[9].len,
            names.list[10].len,
            names.list[11].len,
            names.list[12].len,
        ),
    }
}

#[tactic(auto, unfolding(crate::specs::After::bare_echs, records::specs::Names::ech_at))]
fn are_echs_bare(echs: &Echs, round: Round) -> bool
    ensures { result ≡ bare_echs echs.now (first_ech round) }
{
    match round {
        Round::First => are_zero(
            echs.list[0].len,
            echs.list[1].len,
            echs.list[2].len,
            echs.list[3].len,
        ),
        Round::Second => are_zero(
            echs.list[4].len,
            echs.list[5].len,
            echs.list[6].len,
            echs.list[7].len,
        ),
    }
}

// Whether the places of a round hold no bytes.
#[tactic(auto, unfolding(crate::specs::After::bare))]
pub fn is_bare(names: Names, echs: Echs, round: Round) -> bool
    ensures { result ≡ bare names echs round }
{
    are_names_bare(&names, round) && are_echs_bare(&echs, round)
}
