// A state as the numbers of one list: rules, alternative services, query records, their addresses, services, and the lengths of the names.
use super::flat::{byte, flag, half, number, size, word};
use super::seven::ech_place;
use records::queries::{Addr, Addresses, Answer, Answers, Kind, Queries, Query, Refresh};
use records::rules::{Alt, AltHost, Alts, Host, Mode, Port, Preference, Rules, Version, Versions};
use records::services::{Hint, Service, Services};
use std::array::from_fn;

// Where each part starts in the list.
const RULES: usize = 0;

const ALTS: usize = 8;

const QUERIES: usize = 29;

const ANSWERS: usize = 94;

const SERVICES: usize = 478;

pub const LENGTHS: usize = 571;

// Bit 0 H3, bit 1 H2, bit 2 H1.
fn versions(n: u64) -> Versions {
    Versions {
        h3: flag(n),
        h2: flag(n / 2),
        h1: flag(n / 4),
    }
}

fn version(n: u64) -> Version {
    match n % 3 {
        0 => Version::H3,
        1 => Version::H2,
        _ => Version::H1,
    }
}

fn preference(n: u64) -> Preference {
    match n % 4 {
        0 => Preference::DualStackPreferV6,
        1 => Preference::DualStackPreferV4,
        2 => Preference::Ipv6Only,
        _ => Preference::Ipv4Only,
    }
}

fn mode(n: u64) -> Mode {
    match n % 3 {
        0 => Mode::Ip,
        1 => Mode::Name,
        _ => Mode::NameWithHttpsRr,
    }
}

// 0 none, else the port and 1.
fn port(n: u64) -> Port {
    if n == 0 {
        return Port::Origin;
    }
    Port::Own(half(n - 1))
}

// A host of that kind; an address in its two halves.
fn host(kind: u64, hi: u64, lo: u64) -> Host {
    match kind % 3 {
        0 => Host::Named,
        1 => Host::V4(word(lo)),
        _ => Host::V6(hi, lo),
    }
}

fn alt_host(kind: u64, hi: u64, lo: u64) -> AltHost {
    let k = kind % 4;
    if k == 3 {
        return AltHost::Origin;
    }
    AltHost::Own(host(k, hi, lo))
}

// Host, port, versions, preference, mode, ECH.
pub fn rules(list: &[u64]) -> Rules {
    let hi = number(list, RULES, 1);
    let lo = number(list, RULES, 2);
    Rules {
        host: host(number(list, RULES, 0), hi, lo),
        port: half(number(list, RULES, 3)),
        versions: versions(number(list, RULES, 4)),
        preference: preference(number(list, RULES, 5)),
        mode: mode(number(list, RULES, 6)),
        ech: flag(number(list, RULES, 7)),
    }
}

// Host, port, version.
fn alt(list: &[u64], base: usize) -> Alt {
    let hi = number(list, base, 1);
    let lo = number(list, base, 2);
    Alt {
        host: alt_host(number(list, base, 0), hi, lo),
        port: port(number(list, base, 3)),
        version: version(number(list, base, 4)),
    }
}

pub fn alts(list: &[u64]) -> Alts {
    Alts {
        count: size(list, ALTS, 0),
        list: [
            alt(list, ALTS + 1),
            alt(list, ALTS + 6),
            alt(list, ALTS + 11),
            alt(list, ALTS + 16),
        ],
    }
}

fn kind(n: u64) -> Kind {
    match n % 3 {
        0 => Kind::Https,
        1 => Kind::Aaaa,
        _ => Kind::A,
    }
}

fn answer(n: u64, count: usize) -> Answer {
    match n % 3 {
        0 => Answer::Pending,
        1 => Answer::Failed(0),
        _ => Answer::Held(0, count),
    }
}

// Type, place of the name, answer, how many addresses.
fn query(list: &[u64], base: usize) -> Query {
    Query {
        id: 0,
        kind: kind(number(list, base, 0)),
        name: byte(number(list, base, 1)),
        stale: false,
        answer: answer(number(list, base, 2), size(list, base, 3)),
        refresh: Refresh::Idle,
    }
}

pub fn queries(list: &[u64]) -> Queries {
    Queries {
        count: size(list, QUERIES, 0),
        list: from_fn(|i| query(list, QUERIES + 1 + 4 * i)),
    }
}

// High half, low half, scope.
fn addr(list: &[u64], base: usize) -> Addr {
    Addr {
        hi: number(list, base, 0),
        lo: number(list, base, 1),
        scope: word(number(list, base, 2)),
    }
}

fn addresses(list: &[u64], base: usize) -> Addresses {
    Addresses {
        list: from_fn(|i| addr(list, base.wrapping_add(3 * i))),
    }
}

pub fn answers(list: &[u64]) -> Answers {
    Answers {
        list: from_fn(|i| addresses(list, ANSWERS + 24 * i)),
    }
}

fn hints4(list: &[u64], base: usize) -> [u32; 4] {
    [
        word(number(list, base, 0)),
        word(number(list, base, 1)),
        word(number(list, base, 2)),
        word(number(list, base, 3)),
    ]
}

// An address of which the scope isn't read.
fn hint(list: &[u64], base: usize, k: usize) -> Hint {
    let at = base.wrapping_add(k);
    Hint {
        hi: number(list, at, 0),
        lo: number(list, at, 1),
    }
}

fn hints6(list: &[u64], base: usize) -> [Hint; 4] {
    [
        hint(list, base, 0),
        hint(list, base, 3),
        hint(list, base, 6),
        hint(list, base, 9),
    ]
}

// Priority, place of the name, ECH place, versions, port; hints of IPv4, then of IPv6.
fn service(list: &[u64], base: usize) -> Service {
    let at4 = base.wrapping_add(6);
    let at6 = base.wrapping_add(11);
    Service {
        priority: half(number(list, base, 0)),
        name: byte(number(list, base, 1)),
        ech: ech_place(number(list, base, 2)),
        versions: versions(number(list, base, 3)),
        port: port(number(list, base, 4)),
        n4: size(list, base, 5),
        v4: hints4(list, at4),
        n6: size(list, base, 10),
        v6: hints6(list, at6),
    }
}

pub fn services(list: &[u64]) -> Services {
    Services {
        count: size(list, SERVICES, 0),
        list: [
            service(list, SERVICES + 1),
            service(list, SERVICES + 24),
            service(list, SERVICES + 47),
            service(list, SERVICES + 70),
        ],
    }
}
