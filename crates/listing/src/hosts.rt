// What a host has to connect to: addresses or a name.
ghost use Rattle.std.specs.Prelude.{min, ◌≡◌, cond};
ghost use Rattle.records.specs.Classes.{same_class};
ghost use Rattle.listing.specs.Held.{held_targets};
ghost use Rattle.listing.specs.Listing.{service_by_name, nothing, one_target, service_held, service_hints, origin_targets, own_targets, alt_targets};

use super::held::at_most;
use super::sources::Sources;
use records::queries::Kind;
use records::references::Source;
use records::rules::{
    AltHost, Host, Rules, allows_four, allows_six, by_name, is_named, with_https,
};
use records::services::Service;

// The first so many targets of a source.
#[derive(Clone, Copy)]
pub struct Targets {
    pub source: Source,
    pub count: u8,
}

// What a host has: IPv6 and IPv4 addresses, or a name and nothing.
#[derive(Clone, Copy)]
pub struct HostTargets {
    pub first: Targets,
    pub second: Targets,
}

// Whether services are connected to by name.
fn service_by_name(r: Rules) -> bool
    ensures { result ≡ service_by_name r }
{
    is_named(r.host) && with_https(r.mode)
}

pub fn nothing_of() -> HostTargets
    ensures { result ≡ nothing }
{
    HostTargets {
        first: Targets {
            source: Source::Held6(0),
            count: 0,
        },
        second: Targets {
            source: Source::Held6(0),
            count: 0,
        },
    }
}

fn one_target(s: Source) -> HostTargets
    ensures { result ≡ one_target s }
{
    HostTargets {
        first: Targets {
            source: s,
            count: 1,
        },
        second: Targets {
            source: Source::Held6(0),
            count: 0,
        },
    }
}

// One place of a source, if it is allowed.
fn one_if(on: bool, s: Source) -> HostTargets
    ensures { result ≡ cond on (one_target s) nothing }
{
    if on { one_target(s) } else { nothing_of() }
}

fn hints_of(on: bool, n: usize) -> u8
    ensures { result ≡ cond on (min n 4) 0 }
{
    if on { at_most(n, 4) } else { 0 }
}

#[tactic(auto, unfolding(crate::specs::Listing::service_hints))]
pub fn service_hints(r: Rules, i: u8, s: &Service) -> HostTargets
    ensures { result ≡ service_hints r i s.now }
{
    if service_by_name(r) {
        return nothing_of();
    }
    let p = r.preference;
    let six = hints_of(allows_six(p), s.n6);
    let four = hints_of(allows_four(p), s.n4);
    HostTargets {
        first: Targets {
            source: Source::Hint6(i),
            count: six,
        },
        second: Targets {
            source: Source::Hint4(i),
            count: four,
        },
    }
}

impl Sources {
    // The IPv6 and the IPv4 addresses held for a name.
    #[tactic(auto, unfolding(crate::specs::Held::held_targets))]
    fn held_targets(&self, place: u8) -> HostTargets
        ensures { result ≡ held_targets (same_class self.now.same) self.now.queries place }
    {
        let six = self.held_at(Kind::Aaaa, place);
        let four = self.held_at(Kind::A, place);
        HostTargets {
            first: Targets {
                source: Source::Held6(six.query),
                count: six.count,
            },
            second: Targets {
                source: Source::Held4(four.query),
                count: four.count,
            },
        }
    }

    #[tactic(auto, unfolding(crate::specs::Listing::service_held))]
    pub fn service_held(&self, s: &Service) -> HostTargets
        ensures { result ≡ service_held self.now.rules self.now.queries (same_class self.now.same) s.now }
    {
        if service_by_name(self.rules) {
            return one_target(Source::Name(s.name));
        }
        self.held_targets(s.name)
    }

    #[tactic(auto, unfolding(crate::specs::Listing::origin_targets))]
    pub fn origin_targets(&self) -> HostTargets
        ensures { result ≡ origin_targets self.now.rules self.now.queries (same_class self.now.same) }
    {
        match self.rules.host {
            Host::Named => {
                if by_name(self.rules.mode) {
                    return one_target(Source::Name(0));
                }
                self.held_targets(0)
            }
            Host::V4(_) => one_target(Source::Literal4(0)),
            Host::V6(_, _) => one_target(Source::Literal6(0)),
        }
    }

    // What an alternative's own host has; w is the place of its name.
    fn own_targets(&self, w: u8, h: Host) -> HostTargets
        ensures { result ≡ own_targets self.now.rules self.now.queries (same_class self.now.same) w h }
    {
        let f = self.rules.preference;
        match h {
            Host::Named => {
                if by_name(self.rules.mode) {
                    return one_target(Source::Name(w));
                }
                self.held_targets(w)
            }
            Host::V4(_) => one_if(allows_four(f), Source::Literal4(w)),
            Host::V6(_, _) => one_if(allows_six(f), Source::Literal6(w)),
        }
    }

    pub fn alt_targets(&self, w: u8, h: AltHost) -> HostTargets
        ensures { result ≡ alt_targets self.now.rules self.now.queries (same_class self.now.same) w h }
    {
        match h {
            AltHost::Origin => self.origin_targets(),
            AltHost::Own(own) => self.own_targets(w, own),
        }
    }
}
