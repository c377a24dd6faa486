// Which places hold the same host or the same ECH bytes: for each the first such place, 14 for the origin's host and 40 for no ECH bytes.
// Decisions ask this in place of the bytes.
ghost use Rattle.std.specs.Prelude.{◌≡◌};
ghost use Rattle.upcoming.specs.Alike.{host_class, ech_class, alike_hosts, alike_echs, alike_endpoints};

use records::endpoints::{Endpoint, Target, same_head};
use records::names::{EchPlace, SameNames};

#[derive(Clone, Copy)]
pub struct SameHosts {
    pub list: [u8; 14],
}

#[derive(Clone, Copy)]
pub struct SameEchs {
    pub list: [u8; 40],
}

// What is the same among names, hosts and ECH bytes.
#[derive(Clone, Copy)]
pub struct Alike {
    pub names: SameNames,
    pub hosts: SameHosts,
    pub echs: SameEchs,
}

// The class of a place. Outside the table a host is the origin's, and ECH bytes are none. The two tables are types of their own in the
// definitions (`host_class`, `ech_class`), so that neither is read for the other.
#[tactic(auto, unfolding(crate::specs::Alike::host_class))]
fn host_class(t: SameHosts, place: u8) -> u8
    ensures { result ≡ host_class t place }
{
    match t.list.get(place as usize) {
        Some(class) => *class,
        None => 14,
    }
}

#[tactic(auto, unfolding(crate::specs::Alike::ech_class))]
fn ech_class(t: SameEchs, place: u8) -> u8
    ensures { result ≡ ech_class t place }
{
    match t.list.get(place as usize) {
        Some(class) => *class,
        None => 40,
    }
}

fn alike_hosts(t: SameHosts, a: Target, b: Target) -> bool
    ensures { result ≡ alike_hosts t a b }
{
    match (a, b) {
        (Target::Named(p), Target::Named(q)) => host_class(t, p) == host_class(t, q),
        _ => true,
    }
}

fn alike_echs(t: SameEchs, a: EchPlace, b: EchPlace) -> bool
    ensures { result ≡ alike_echs t a b }
{
    match (a, b) {
        (EchPlace::At(p), EchPlace::At(q)) => ech_class(t, p) == ech_class(t, q),
        _ => true,
    }
}

// Whether two endpoints are one: by their numbers first, then by what is alike.
#[tactic(auto, unfolding(crate::specs::Alike::alike_endpoints))]
pub fn alike_endpoints(hosts: SameHosts, echs: SameEchs, a: Endpoint, b: Endpoint) -> bool
    ensures { result ≡ alike_endpoints hosts echs a b }
{
    same_head(a, b) && alike_hosts(hosts, a.target, b.target) && alike_echs(echs, a.ech, b.ech)
}
