// An endpoint as seven numbers: the target's case, high half, low half or the name's place, scope; port, rank, ECH place and 1.
ghost use Rattle.std.specs.Prelude.{◌≡◌};
ghost use Rattle.probes.specs.Flat.{target_of, rank_of, ech_place_of, endpoint_of};

use super::flat::{byte, half, number, word};
use records::endpoints::{Endpoint, Rank, Target, rank_number, target_number};
use records::names::EchPlace;

#[tactic(auto, unfolding(crate::specs::Flat::target_of))]
fn target(case: u64, hi: u64, lo: u64, scope: u64) -> Target
    ensures { result ≡ target_of case hi lo scope }
{
    match case % 3 {
        0 => Target::V4(word(lo)),
        1 => Target::V6(hi, lo, word(scope)),
        _ => Target::Named(byte(lo)),
    }
}

#[tactic(auto, unfolding(crate::specs::Flat::rank_of))]
fn rank(n: u64) -> Rank
    ensures { result ≡ rank_of n }
{
    match n % 4 {
        0 => Rank::H3,
        1 => Rank::H2OrH1,
        2 => Rank::H2,
        _ => Rank::H1,
    }
}

// 0 none, else the place and 1.
#[tactic(auto, unfolding(crate::specs::Flat::ech_place_of))]
pub fn ech_place(n: u64) -> EchPlace
    ensures { result ≡ ech_place_of n }
{
    if n == 0 {
        return EchPlace::Without;
    }
    EchPlace::At(byte(n - 1))
}

// The endpoint whose numbers stand from base on.
#[tactic(auto, unfolding(crate::specs::Flat::endpoint_of))]
pub fn endpoint(list: &[u64], base: usize) -> Endpoint
    ensures { result ≡ endpoint_of list.now base }
{
    let hi = number(list, base, 1);
    let lo = number(list, base, 2);
    Endpoint {
        target: target(number(list, base, 0), hi, lo, number(list, base, 3)),
        port: half(number(list, base, 4)),
        rank: rank(number(list, base, 5)),
        ech: ech_place(number(list, base, 6)),
    }
}

fn ech_number(e: EchPlace) -> u64 {
    match e {
        EchPlace::Without => 0,
        EchPlace::At(p) => p as u64 + 1,
    }
}

fn halves(t: Target) -> [u64; 3] {
    match t {
        Target::V4(x) => [0, x as u64, 0],
        Target::V6(hi, lo, scope) => [hi, lo, scope as u64],
        Target::Named(w) => [0, w as u64, 0],
    }
}

// The numbers of an endpoint.
pub fn endpoint_numbers(e: Endpoint) -> [u64; 7] {
    let t = e.target;
    let k = e.rank;
    let p = e.ech;
    let h = halves(t);
    [
        target_number(t) as u64,
        h[0],
        h[1],
        h[2],
        e.port as u64,
        rank_number(k) as u64,
        ech_number(p),
    ]
}
