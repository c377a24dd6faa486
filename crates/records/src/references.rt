// References to listed endpoints: where a target is found, and the endpoint that is read there.
ghost use Rattle.std.specs.Prelude.{◌≡◌};
ghost use Rattle.records.specs.References.{no_item, literal_at, literal_six, literal_four, target_of, endpoint_of};

use super::endpoints::{Endpoint, Rank, Target};
use super::names::EchPlace;
use super::queries::{Answers, address_at};
use super::rules::{Alts, Host, Rules, host_of};
use super::services::{Services, hint_four, hint_six};

// Where the target of a listed endpoint is found.
#[derive(Clone, Copy)]
pub enum Source {
    // the answer of an AAAA or A record, by the record's place
    Held6(u8),
    Held4(u8),
    // the hints of a service, by its place in the answer
    Hint6(u8),
    Hint4(u8),
    // a host that is an address: 0 the origin, 1 + i alternative service i
    Literal6(u8),
    Literal4(u8),
    // a place among the names
    Name(u8),
}

// A reference to a listed endpoint: `place` counts within its source. In this order of fields it takes eight bytes.
#[derive(Clone, Copy)]
pub struct Item {
    pub source: Source,
    pub port: u16,
    pub place: u8,
    pub rank: Rank,
    pub ech: EchPlace,
}

pub fn no_item() -> Item
    ensures { result ≡ no_item }
{
    Item {
        source: Source::Held6(0),
        port: 0,
        place: 0,
        rank: Rank::H3,
        ech: EchPlace::Without,
    }
}

// The host of the origin (0) or of alternative service k - 1.
#[tactic(auto, unfolding(crate::specs::References::literal_at))]
fn literal_at(r: Rules, alts: Alts, k: u8) -> Host
    ensures { result ≡ literal_at r alts k }
{
    if k == 0 || 4 < k {
        return r.host;
    }
    host_of(r.host, alts.list[(k - 1) as usize].host)
}

fn literal_six(h: Host) -> Target
    ensures { result ≡ literal_six h }
{
    match h {
        Host::V6(x, y) => Target::V6(x, y, 0),
        Host::V4(_) | Host::Named => Target::V6(0, 0, 0),
    }
}

fn literal_four(h: Host) -> Target
    ensures { result ≡ literal_four h }
{
    match h {
        Host::V4(x) => Target::V4(x),
        Host::V6(_, _) | Host::Named => Target::V4(0),
    }
}

fn target_at(r: Rules, alts: Alts, answers: Answers, services: Services, p: u8, s: Source) -> Target
    ensures { result ≡ target_of r alts answers services p s }
{
    match s {
        Source::Held6(q) => {
            let a = address_at(answers, q, p);
            Target::V6(a.hi, a.lo, a.scope)
        }
        Source::Held4(q) => {
            let a = address_at(answers, q, p);
            Target::V4((a.lo % 4294967296) as u32)
        }
        Source::Hint6(i) => {
            let h = hint_six(services, i, p);
            Target::V6(h.hi, h.lo, 0)
        }
        Source::Hint4(i) => Target::V4(hint_four(services, i, p)),
        Source::Literal6(k) => literal_six(literal_at(r, alts, k)),
        Source::Literal4(k) => literal_four(literal_at(r, alts, k)),
        Source::Name(w) => Target::Named(w),
    }
}

// The endpoint that a reference stands for; a place outside its table reads as empty.
#[tactic(auto, unfolding(crate::specs::References::endpoint_of))]
pub fn endpoint_at(
    rules: Rules,
    alts: Alts,
    answers: Answers,
    services: Services,
    item: Item,
) -> Endpoint
    ensures { result ≡ endpoint_of rules alts answers services item }
{
    Endpoint {
        target: target_at(rules, alts, answers, services, item.place, item.source),
        port: item.port,
        rank: item.rank,
        ech: item.ech,
    }
}
