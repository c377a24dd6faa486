// Endpoints, and when two are the same: target, port, rank and ECH bytes.
ghost use Rattle.std.specs.Prelude.{◌≡◌};
ghost use Rattle.records.specs.Numbers.{rank_number, target_number};
ghost use Rattle.records.specs.Endpoints.{no_endpoint, same_numbers, same_sealed, same_head, same_hosts, same_echs, same_endpoint};

use super::names::{EchPlace, Echs, Names, ech_at, same_ech, same_host};
use super::services::has_ech;

// `ConnectionAttemptHttpVersions`
#[derive(Clone, Copy, Debug, PartialEq, Eq)]
pub enum Rank {
    H3 = 0,
    H2OrH1 = 1,
    H2 = 2,
    H1 = 3,
}

// What an endpoint connects to: an IPv4 address, an IPv6 address with its scope, or a name by place.
#[derive(Clone, Copy)]
pub enum Target {
    V4(u32),
    V6(u64, u64, u32),
    Named(u8),
}

#[derive(Clone, Copy)]
pub struct Endpoint {
    pub target: Target,
    pub port: u16,
    pub rank: Rank,
    pub ech: EchPlace,
}

pub fn no_endpoint() -> Endpoint
    ensures { result ≡ no_endpoint }
{
    Endpoint {
        target: Target::V4(0),
        port: 0,
        rank: Rank::H3,
        ech: EchPlace::Without,
    }
}

// A version rank in an answer.
pub fn rank_number(r: Rank) -> u8
    ensures { result ≡ rank_number r }
{
    r as u8
}

// A target's case in an answer.
pub fn target_number(t: Target) -> u8
    ensures { result ≡ target_number t }
{
    match t {
        Target::V4(_) => 0,
        Target::V6(_, _, _) => 1,
        Target::Named(_) => 2,
    }
}

fn same_numbers(a: Target, b: Target) -> bool
    ensures { result ≡ same_numbers a b }
{
    match (a, b) {
        (Target::V4(x), Target::V4(y)) => x == y,
        (Target::V6(h, l, s), Target::V6(i, m, t)) => h == i && l == m && s == t,
        (Target::Named(_), Target::Named(_)) => true,
        _ => false,
    }
}

fn same_sealed(a: EchPlace, b: EchPlace) -> bool
    ensures { result ≡ same_sealed a b }
{
    has_ech(a) == has_ech(b)
}

// Whether two endpoints agree in port, rank, address and in having ECH at all. Only where they do can the bytes in the tables still part them.
#[tactic(auto, unfolding(crate::specs::Endpoints::same_head))]
pub fn same_head(a: Endpoint, b: Endpoint) -> bool
    ensures { result ≡ same_head a b }
{
    a.port == b.port
        && a.rank == b.rank
        && same_numbers(a.target, b.target)
        && same_sealed(a.ech, b.ech)
}

#[tactic(auto, using(crate::proofs::Alike::place_hosts))]
fn same_hosts(names: Names, a: Target, b: Target) -> bool
    ensures { result ≡ same_hosts names a b }
{
    match (a, b) {
        (Target::Named(p), Target::Named(q)) => p == q || same_host(names, p, q),
        _ => true,
    }
}

#[tactic(auto, using(crate::proofs::Alike::place_seals))]
fn same_echs(echs: Echs, a: EchPlace, b: EchPlace) -> bool
    ensures { result ≡ same_echs echs a b }
{
    match (a, b) {
        (EchPlace::At(p), EchPlace::At(q)) => p == q || same_ech(ech_at(echs, p), ech_at(echs, q)),
        _ => true,
    }
}

// Whether two endpoints are one: target, port, rank and ECH bytes.
#[tactic(auto, using(crate::proofs::Alike::head_first))]
pub fn same_endpoint(names: Names, echs: Echs, a: Endpoint, b: Endpoint) -> bool
    ensures { result ≡ same_endpoint names echs a b }
{
    same_head(a, b) && same_hosts(names, a.target, b.target) && same_echs(echs, a.ech, b.ech)
}
