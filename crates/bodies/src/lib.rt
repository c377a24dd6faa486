#![tactic(auto)]
// Input bodies in bytes, and the call (rules B.5 and B.7).
// A first pass finds the first fault, or says where things stand; a second copies what stands there.
ghost use Rattle.std.specs.Prelude.{◌≡◌};
ghost use Rattle.numbers.specs.Shown as numbers;
ghost use Rattle.parts.specs.Shown.{shown};
ghost use Rattle.bodies.specs.Events.{items_at, answer_at, retry_at, rest_at, input_at, kind_at, body_at, event_at, fault_of, fault_shown};
ghost use Rattle.bodies.specs.Told.{address_count, input_of, addresses_for, addresses_of, located_for, located_of, offered_of, retry_of, beside_of};

use input::Input;
use machine::calls::Beside;
use numbers::field::{Span, read_at_most, read_bytes};
use numbers::number::read_number;
use numbers::refusal::Refusal;
use offers::{Located, Offered, in_rooms, locate_offers, no_located, read_offers};
use parts::address::{Form, Items, fill_addresses, read_addresses};
use parts::reading::{Fault, Reading, field};
use parts::room::ech_of;
use records::names::{Ech, no_ech};
use records::queries::{Addresses, Kind, no_addresses};

// What a body says, and where its items and bytes stand. An answer has its type, the query's id and whether it is stale.
#[derive(Clone, Copy)]
pub enum Event {
    Call,
    Fails(Kind, u64, bool),
    Holds(Kind, u64, bool, Items),
    Success(u64),
    Failure(u64),
    EchRetry(u64, Span),
}

fn read_items(kind: Kind, s: &[u8], at: usize) -> Reading<Items>
    ensures { shown result ≡ items_at kind s.now at }
{
    match kind {
        Kind::Https => read_offers(s, at),
        Kind::Aaaa => read_addresses(Form::Scoped, s, at, 8),
        Kind::A => read_addresses(Form::Four, s, at, 8),
    }
}

// Flags and, unless it failed, what an answer holds.
#[tactic(auto, unfolding(crate::specs::Events::answer_at))]
fn read_answer(kind: Kind, s: &[u8], id: u64, at: usize) -> Reading<Event>
    ensures { shown result ≡ answer_at kind s.now id at }
{
    let (flags, next) = field(at, read_at_most(s, at, 3, Refusal::OutOfRange))?;
    let stale = flags % 2 == 1;
    if 2 <= flags {
        return Ok((Event::Fails(kind, id, stale), next));
    }
    let (l, end) = read_items(kind, s, next)?;
    Ok((Event::Holds(kind, id, stale, l), end))
}

// The bytes of an ECH retry.
#[tactic(auto, unfolding(crate::specs::Events::retry_at))]
fn read_retry(s: &[u8], id: u64, at: usize) -> Reading<Event>
    ensures { shown result ≡ retry_at s.now id at }
{
    let (len, next) = field(at, read_at_most(s, at, 512, Refusal::TooMany))?;
    let (b, end) = field(next, read_bytes(s, next, len as usize))?;
    Ok((Event::EchRetry(id, b), end))
}

// What follows kind and id. The kind is a number here, as `rest_at` has it: an enum would be no plainer, told apart twice.
#[tactic(auto, unfolding(crate::specs::Events::rest_at))]
fn read_rest(s: &[u8], kind: u64, id: u64, at: usize) -> Reading<Event>
    ensures { shown result ≡ rest_at s.now kind id at }
{
    match kind {
        1 => read_answer(Kind::Aaaa, s, id, at),
        2 => read_answer(Kind::A, s, id, at),
        3 => read_answer(Kind::Https, s, id, at),
        4 => Ok((Event::Success(id), at)),
        5 => Ok((Event::Failure(id), at)),
        _ => read_retry(s, id, at),
    }
}

// What follows the kind of an input.
#[tactic(auto, unfolding(crate::specs::Events::input_at))]
fn read_input(s: &[u8], kind: u64, at: usize) -> Reading<Event>
    ensures { shown result ≡ input_at s.now kind at }
{
    let (id, next) = field(at, read_number(s, at))?;
    read_rest(s, kind, id, next)
}

#[tactic(auto, unfolding(crate::specs::Events::kind_at))]
fn read_kind(s: &[u8]) -> Result<(u64, usize), Refusal>
    ensures { numbers.shown result ≡ kind_at s.now }
{
    let (kind, next) = read_at_most(s, 0, 7, Refusal::OutOfRange)?;
    if kind == 0 {
        return Err(Refusal::OutOfRange);
    }
    Ok((kind, next))
}

#[tactic(auto, unfolding(crate::specs::Events::body_at))]
fn read_body(s: &[u8]) -> Reading<Event>
    ensures { shown result ≡ body_at s.now }
{
    let (kind, next) = field(0, read_kind(s))?;
    if kind == 7 {
        return Ok((Event::Call, next));
    }
    read_input(s, kind, next)
}

// A body on a tape: what it says, or its first fault. Bytes after the last field are found last.
#[tactic(auto, unfolding(crate::specs::Events::event_at))]
pub fn read_event(s: &[u8]) -> Reading<Event>
    ensures { shown result ≡ event_at s.now }
{
    let (e, end) = read_body(s)?;
    if end < s.len() {
        return Err(Fault {
            refusal: Refusal::Trailing,
            place: end,
        });
    }
    Ok((e, end))
}

// The fault of a body alone, or where it ends.
pub fn body_fault(s: &[u8]) -> Result<usize, Fault>
    ensures { fault_shown result ≡ fault_of (event_at s.now) }
{
    let (_, end) = read_event(s)?;
    Ok(end)
}

fn address_count(kind: Kind, l: Items) -> usize
    ensures { result ≡ address_count kind l }
{
    match kind {
        Kind::Https => 0,
        Kind::Aaaa | Kind::A => l.count,
    }
}

// The input of an event that isn't a call.
pub fn input_of(e: Event) -> Input
    ensures { result ≡ input_of e }
{
    match e {
        Event::Call => Input::Success(0),
        Event::Fails(k, id, stale) => Input::Fails(k, id, stale),
        Event::Holds(k, id, stale, l) => Input::Holds(k, id, stale, address_count(k, l)),
        Event::Success(id) => Input::Success(id),
        Event::Failure(id) => Input::Failure(id),
        Event::EchRetry(id, _) => Input::EchRetry(id),
    }
}

fn addresses_for(s: &[u8], kind: Kind, l: Items) -> Addresses
    ensures { result ≡ addresses_for s.now kind l }
{
    match kind {
        Kind::Https => no_addresses(),
        Kind::Aaaa => fill_addresses(Form::Scoped, s, l),
        Kind::A => fill_addresses(Form::Four, s, l),
    }
}

// The addresses that an event brings.
pub fn addresses_of(s: &[u8], e: Event) -> Addresses
    ensures { result ≡ addresses_of s.now e }
{
    match e {
        Event::Holds(k, _, _, l) => addresses_for(s, k, l),
        _ => no_addresses(),
    }
}

fn locate_for(s: &[u8], kind: Kind, l: Items) -> Located
    ensures { result ≡ located_for s.now kind l }
{
    match kind {
        Kind::Https => locate_offers(s, l),
        Kind::Aaaa | Kind::A => no_located(),
    }
}

// The services that an event brings, and where their names and ECH bytes stand.
pub fn located_of(s: &[u8], e: Event) -> Located
    ensures { result ≡ located_of s.now e }
{
    match e {
        Event::Holds(k, _, _, l) => locate_for(s, k, l),
        _ => no_located(),
    }
}

// The services that an event brings, with their names and ECH bytes.
pub fn offered_of(s: &[u8], e: Event) -> Offered
    ensures { result ≡ offered_of s.now e }
{
    in_rooms(s, located_of(s, e))
}

// The ECH bytes that an event brings as a retry.
pub fn retry_of(s: &[u8], e: Event) -> Ech
    ensures { result ≡ retry_of s.now e }
{
    match e {
        Event::EchRetry(_, b) => ech_of(s, b),
        _ => no_ech(),
    }
}

// All that comes beside an input.
#[tactic(auto, unfolding(crate::specs::Told::beside_of))]
pub fn beside_of(s: &[u8], e: Event) -> Beside
    ensures { result ≡ beside_of s.now e }
{
    let Offered {
        services,
        names,
        echs,
    } = offered_of(s, e);
    Beside {
        addresses: addresses_of(s, e),
        services,
        names,
        echs,
        retry: retry_of(s, e),
    }
}
