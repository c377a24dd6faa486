#![tactic(auto)]
// Services in an HTTPS answer.
ghost use Rattle.std.specs.Prelude.{◌≡◌};
ghost use Rattle.parts.specs.Items.{counted};
ghost use Rattle.parts.specs.Shown.{shown};
ghost use Rattle.offers.specs.Offers.{head, ech, way, hints, offer, sealed_at, service_of, span_of, no_located, located_in, names_in, echs_in, in_rooms};

use after::{TargetEchs, TargetNames};
use numbers::field::{Span, read_at_most, read_bytes, read_name};
use numbers::refusal::Refusal;
use parts::address::{Form, Items, fill_fours, fill_sixes, read_addresses};
use parts::field::{read_port, read_versions};
use parts::reading::{Reading, field};
use parts::room::{ech_of, name_of};
use parts::row::{Kind, read_row};
use records::names::EchPlace;
use records::rules::{Port, Versions};
use records::services::{Service, Services, no_services};

// A service, with its bytes and hints where they stand.
#[derive(Clone, Copy)]
pub struct Head {
    pub priority: u16,
    pub name: Span,
    pub versions: Versions,
}

#[derive(Clone, Copy)]
pub struct Way {
    pub port: Port,
    pub ech: Option<Span>,
}

#[derive(Clone, Copy)]
pub struct Hints {
    pub four: Items,
    pub six: Items,
}

#[derive(Clone, Copy)]
pub struct Offer {
    pub head: Head,
    pub way: Way,
    pub hints: Hints,
}

// The services of an HTTPS answer, and where the name and the ECH bytes of each stand: an empty span where there are none.
// They stand side by side, as `located` says them: each has a table of its own in the machine.
#[derive(Clone, Copy)]
pub struct Located {
    pub services: Services,
    pub names: [Span; 4],
    pub echs: [Span; 4],
}

// What an HTTPS answer has: its services, with their names and ECH bytes beside.
#[derive(Clone, Copy)]
pub struct Offered {
    pub services: Services,
    pub names: TargetNames,
    pub echs: TargetEchs,
}

// Priority, name, versions.
#[tactic(auto, unfolding(crate::specs::Offers::head, numbers::specs::Fields::at_most))]
fn read_head(s: &[u8], at: usize) -> Reading<Head>
    ensures { shown result ≡ head s.now at }
{
    let (v, next) = field(at, read_at_most(s, at, 65535, Refusal::OutOfRange))?;
    let (name, after) = field(next, read_name(s, next))?;
    let (versions, end) = read_versions(s, after)?;
    Ok((
        Head {
            priority: v as u16,
            name,
            versions,
        },
        end,
    ))
}

// ECH bytes, or none.
#[tactic(auto, unfolding(crate::specs::Offers::ech))]
fn read_ech(s: &[u8], at: usize) -> Reading<Option<Span>>
    ensures { shown result ≡ ech s.now at }
{
    let (v, next) = field(at, read_at_most(s, at, 513, Refusal::TooMany))?;
    if v == 0 {
        return Ok((None, next));
    }
    let len = (v - 1) as usize;
    let (b, end) = field(next, read_bytes(s, next, len))?;
    Ok((Some(b), end))
}

// Port and ECH.
#[tactic(auto, unfolding(crate::specs::Offers::way))]
fn read_way(s: &[u8], at: usize) -> Reading<Way>
    ensures { shown result ≡ way s.now at }
{
    let (port, next) = read_port(s, at)?;
    let (ech, end) = read_ech(s, next)?;
    Ok((Way { port, ech }, end))
}

// Hints of both families.
#[tactic(auto, unfolding(crate::specs::Offers::hints))]
fn read_hints(s: &[u8], at: usize) -> Reading<Hints>
    ensures { shown result ≡ hints s.now at }
{
    let (four, next) = read_addresses(Form::Four, s, at, 4)?;
    let (six, end) = read_addresses(Form::Six, s, next, 4)?;
    Ok((Hints { four, six }, end))
}

// One service.
#[tactic(auto, unfolding(crate::specs::Offers::offer))]
fn read_offer(s: &[u8], at: usize) -> Reading<Offer>
    ensures { shown result ≡ offer s.now at }
{
    let (head, next) = read_head(s, at)?;
    let (way, after) = read_way(s, next)?;
    let (hints, end) = read_hints(s, after)?;
    Ok((Offer { head, way, hints }, end))
}

// The kind of a row of services.
struct OfferKind;

impl Kind<Offer> for OfferKind {
    ghost told = { λ _. offer };

    fn read(&self, s: &[u8], at: usize) -> Reading<Offer> {
        read_offer(s, at)
    }
}

// A count and so many services.
pub fn read_offers(s: &[u8], at: usize) -> Reading<Items>
    ensures { shown result ≡ counted 4 (offer s.now) s.now at }
{
    read_row(&OfferKind, s, at, 4)
}

fn sealed_at(e: Option<Span>) -> EchPlace
    ensures { result ≡ sealed_at e }
{
    match e {
        None => EchPlace::Without,
        Some(_) => EchPlace::At(0),
    }
}

// Its place among the names and ECH bytes is settled when it is stored.
#[tactic(auto, unfolding(crate::specs::Offers::service_of))]
fn service_of(s: &[u8], o: Offer) -> Service
    ensures { result ≡ service_of s.now o }
{
    let Offer { head, way, hints } = o;
    let fours = fill_fours(s, hints.four);
    let sixes = fill_sixes(s, hints.six);
    let v4 = fours.list;
    let v6 = sixes.list;
    Service {
        priority: head.priority,
        name: 0,
        ech: sealed_at(way.ech),
        versions: head.versions,
        port: way.port,
        n4: fours.count,
        v4,
        n6: sixes.count,
        v6,
    }
}

fn span_of(e: Option<Span>) -> Span
    ensures { result ≡ span_of e }
{
    e.unwrap_or(Span { start: 0, len: 0 })
}

#[tactic(auto, unfolding(crate::specs::Offers::no_located))]
pub fn no_located() -> Located
    ensures { result ≡ no_located }
{
    Located {
        services: no_services(),
        names: [Span { start: 0, len: 0 }; 4],
        echs: [Span { start: 0, len: 0 }; 4],
    }
}

// The services of an answer, read where they stand.
pub fn locate_offers(s: &[u8], l: Items) -> Located
    ensures { result ≡ located_in s.now l }
{
    let mut out = no_located();
    if 4 < l.count {
        return out;
    }
    let mut p = l.first;
    for i in 0..l.count {
        let Ok((o, next)) = read_offer(s, p) else {
            return no_located();
        };
        out.services.list[i] = service_of(s, o);
        out.names[i] = o.head.name;
        out.echs[i] = span_of(o.way.ech);
        p = next;
    }
    out.services.count = l.count;
    out
}

// One by one: `map` or a loop takes twice the time.
fn names_in(s: &[u8], l: [Span; 4]) -> TargetNames
    ensures { result ≡ names_in s.now l }
{
    let [a, b, c, d] = l;
    TargetNames {
        list: [name_of(s, a), name_of(s, b), name_of(s, c), name_of(s, d)],
    }
}

fn echs_in(s: &[u8], l: [Span; 4]) -> TargetEchs
    ensures { result ≡ echs_in s.now l }
{
    let [a, b, c, d] = l;
    TargetEchs {
        list: [ech_of(s, a), ech_of(s, b), ech_of(s, c), ech_of(s, d)],
    }
}

// The names and ECH bytes, copied from where they stand.
#[tactic(auto, unfolding(crate::specs::Offers::in_rooms))]
pub fn in_rooms(s: &[u8], o: Located) -> Offered
    ensures { result ≡ in_rooms s.now o }
{
    Offered {
        services: o.services,
        names: names_in(s, o.names),
        echs: echs_in(s, o.echs),
    }
}
