// A tier: what is dealt together, as runs of references, and the references in dealt order.
ghost use Rattle.std.specs.Prelude.{ℕ, ◌<◌, ◌≤◌, ◌≡◌, false, ◌∷◌, [], map, length, get_or, take};
ghost use Rattle.deal.specs.Interleaving.{interleave, order, Grouped};
ghost use Rattle.records.specs.Classes.{same_class};
ghost use Rattle.records.specs.References.{no_item};
ghost use Rattle.records.specs.declared.names.EchPlace.TheVariants.{Without};
ghost use Rattle.records.specs.declared.endpoints.Rank.TheVariants.{H3};
ghost use Rattle.listing.specs.Items.{run, family_of, group_of, item_of};
ghost use Rattle.listing.specs.Listing.{port_or, ech_if, nothing, service_runs, origin_runs, last_runs, tier_items, dealt};
ghost use Rattle.listing.specs.Room.{grouped, tiered, targets_if, host_runs_if, both_runs, at_ranks, alt_runs_at};

use super::Tier;
use super::hosts::{HostTargets, Targets, nothing_of, service_hints};
use super::sources::Sources;
use super::versions::{Ranks, combine, enabled_of, from_http_versions, is_enabled, rank_of};
use records::endpoints::{Rank, rank_number};
use records::names::EchPlace;
use records::references::{Item, Source, no_item};
use records::rules::{Alts, Port, prefers_six};
use records::services::Service;

// Targets with all else that their endpoints have.
#[derive(Clone, Copy)]
pub struct Run {
    pub source: Source,
    pub port: u16,
    pub count: u8,
    pub rank: Rank,
    pub ech: EchPlace,
}

// What a host has, at one rank.
#[derive(Clone, Copy)]
pub struct HostRuns {
    pub first: Run,
    pub second: Run,
}

// The runs of a tier; unused ones are empty.
#[derive(Clone, Copy)]
pub struct Runs {
    pub list: [Run; 10],
}

// The references of a tier in record order, and the group of each.
#[derive(Clone, Copy)]
pub struct Undealt {
    pub count: usize,
    pub list: [Item; 80],
    pub groups: [u8; 80],
}

// The positions of a tier in dealt order.
#[derive(Clone, Copy)]
pub struct DealtOrder {
    pub list: [u16; 80],
}

fn port_or(origin: u16, p: Port) -> u16
    ensures { result ≡ port_or origin p }
{
    match p {
        Port::Origin => origin,
        Port::Own(q) => q,
    }
}

fn ech_if(on: bool, e: EchPlace) -> EchPlace
    ensures { result ≡ ech_if on e }
{
    if on { e } else { EchPlace::Without }
}

// Targets at a rank; none where it is off.
fn run_of(on: bool, x: Targets, port: u16, ech: EchPlace, rank: Rank) -> Run
    ensures { result ≡ run (targets_if on x) port rank ech }
{
    Run {
        source: x.source,
        port,
        count: if on { x.count } else { 0 },
        rank,
        ech,
    }
}

fn host_runs(on: bool, x: HostTargets, port: u16, ech: EchPlace, rank: Rank) -> HostRuns
    ensures { result ≡ host_runs_if on x port ech rank }
{
    HostRuns {
        first: run_of(on, x.first, port, ech, rank),
        second: run_of(on, x.second, port, ech, rank),
    }
}

fn no_host_runs() -> HostRuns
    ensures { result ≡ host_runs_if false nothing 0 Without H3 }
{
    host_runs(false, nothing_of(), 0, EchPlace::Without, Rank::H3)
}

fn runs_of(a: HostRuns, b: HostRuns, c: HostRuns, d: HostRuns, e: HostRuns) -> Runs
    ensures { result.list ≡ a.first ∷ a.second ∷ b.first ∷ b.second ∷ c.first ∷ c.second ∷ d.first ∷ d.second ∷ e.first ∷ e.second ∷ [] }
{
    let list = [
        a.first, a.second, b.first, b.second, c.first, c.second, d.first, d.second, e.first,
        e.second,
    ];
    Runs { list }
}

// What is held and what is hinted, at each of at most two ranks.
fn at_ranks(held: HostTargets, hints: HostTargets, ranks: Ranks, port: u16, ech: EchPlace) -> Runs
    ensures { result.list ≡ at_ranks held hints ranks port ech }
{
    let one = 0 < ranks.count;
    let two = 1 < ranks.count;
    let j = ranks.first;
    let k = ranks.second;
    runs_of(
        host_runs(one, held, port, ech, j),
        host_runs(one, hints, port, ech, j),
        host_runs(two, held, port, ech, k),
        host_runs(two, hints, port, ech, k),
        no_host_runs(),
    )
}

fn family(prefer6: bool, s: Source) -> u8
    ensures { (result ≡ family_of prefer6 s) × (result < 2) }
{
    match s {
        Source::Held6(_) | Source::Hint6(_) | Source::Literal6(_) => { if prefer6 { 0 } else { 1 } }
        Source::Held4(_) | Source::Hint4(_) | Source::Literal4(_) => { if prefer6 { 1 } else { 0 } }
        Source::Name(_) => 0,
    }
}

// The group in which a listed endpoint is dealt.
#[tactic(auto, unfolding(deal::specs::Interleaving::group_of))]
fn group_of(prefer6: bool, i: Item) -> u8
    ensures { result ≡ group_of prefer6 i }
{
    rank_number(i.rank) * 2 + family(prefer6, i.source)
}

fn item_of(r: Run, p: u8) -> Item
    ensures { result ≡ item_of r p }
{
    Item {
        source: r.source,
        port: r.port,
        place: p,
        rank: r.rank,
        ech: r.ech,
    }
}

#[tactic(auto, unfolding(crate::specs::Room::grouped, records::specs::Lists::padded))]
fn no_undealt() -> Undealt
    ensures { result ≡ grouped false [] }
{
    let i = no_item();
    Undealt {
        count: 0,
        list: [i; 80],
        groups: [0; 80],
    }
}

// The references of a tier, run after run, with the group of each.
fn tier_of(runs: Runs, prefer6: bool) -> Undealt
    requires { length (tier_items runs.list) ≤ 80 }
    ensures { result ≡ grouped prefer6 (tier_items runs.list) }
{
    let mut t = no_undealt();
    let mut at: usize = 0;
    for &run in &runs.list {
        for p in 0..run.count {
            let x = item_of(run, p);
            t.groups[at] = group_of(prefer6, x);
            t.list[at] = x;
            at += 1;
        }
    }
    t.count = at;
    t
}

// The positions of a tier in dealt order.
fn dealt_order(groups: &[u8]) -> DealtOrder
    requires { (length groups.now ≤ 80) × Grouped groups.now }
    ensures { take (length groups.now) result.list ≡ order groups.now }
{
    let mut out = [0u16; 80];
    let n = groups.len();
    deal::deal(groups, &mut out[..n]);
    DealtOrder { list: out }
}

#[tactic(auto, unfolding(crate::specs::Room::tiered, records::specs::Lists::padded))]
pub fn no_tier() -> Tier
    ensures { result ≡ tiered [] }
{
    let i = no_item();
    Tier {
        count: 0,
        list: [i; 80],
    }
}

// The references at those positions, one after the other.
fn gathered(t: &Undealt, o: &DealtOrder) -> Tier
    requires { (length o.now.list ≡ 80) × (t.now.count ≤ 80) × ((k : ℕ) → k < t.now.count → get_or o.now.list k 0 < 80) }
    ensures { result ≡ tiered (map (λ i. get_or t.now.list i no_item) (take t.now.count o.now.list)) }
{
    let n = t.count;
    let dealt = &o.list[..n];
    let mut out = no_tier();
    for (k, &i) in dealt.iter().enumerate() {
        let j = i as usize;
        out.list[k] = t.list[j];
    }
    out.count = n;
    out
}

// A tier, interleaved.
fn dealt_tier(runs: Runs, prefer6: bool) -> Tier
    requires { length (tier_items runs.list) ≤ 80 }
    ensures { result ≡ tiered (interleave (group_of prefer6) (tier_items runs.list)) }
{
    let t = tier_of(runs, prefer6);
    let groups = &t.groups[..t.count];
    let o = dealt_order(groups);
    gathered(&t, &o)
}

impl Sources {
    // The runs of a service: for each rank the addresses held for its name, then its hints.
    fn service_runs(&self, i: u8, s: &Service) -> Runs
        ensures { tier_items result.list ≡ tier_items (service_runs self.now.rules self.now.queries (same_class self.now.same) i s.now) }
    {
        let r = self.rules;
        let ranks = from_http_versions(enabled_of(r.versions, s.versions));
        let port = port_or(r.port, s.port);
        let ech = ech_if(r.ech, s.ech);
        let held = self.service_held(s);
        let hints = service_hints(r, i, s);
        at_ranks(held, hints, ranks, port, ech)
    }

    // The runs of alternative service i, where there is one.
    fn alt_runs(&self, alts: &Alts, i: u8) -> HostRuns
        requires { i < 4 }
        ensures { tier_items (both_runs result) ≡ tier_items (alt_runs_at self.now.rules self.now.queries (same_class self.now.same) alts.now i) }
    {
        let at = i as usize;
        if alts.count <= at {
            return no_host_runs();
        }
        let r = self.rules;
        let a = alts.list[at];
        host_runs(
            is_enabled(r.versions, a.version),
            self.alt_targets(i + 1, a.host),
            port_or(r.port, a.port),
            EchPlace::Without,
            rank_of(a.version),
        )
    }

    // The runs of the origin.
    fn origin_runs(&self) -> HostRuns
        ensures { tier_items (both_runs result) ≡ tier_items (origin_runs self.now.rules self.now.queries (same_class self.now.same)) }
    {
        let v = self.rules.versions;
        let ranks = combine(v.h2, v.h1);
        host_runs(
            0 < ranks.count,
            self.origin_targets(),
            self.rules.port,
            EchPlace::Without,
            ranks.first,
        )
    }

    // The runs of the last tier: alternative services and origin.
    fn last_runs(&self, alts: Alts) -> Runs
        ensures { tier_items result.list ≡ tier_items (last_runs self.now.rules alts self.now.queries (same_class self.now.same)) }
    {
        runs_of(
            self.alt_runs(&alts, 0),
            self.alt_runs(&alts, 1),
            self.alt_runs(&alts, 2),
            self.alt_runs(&alts, 3),
            self.origin_runs(),
        )
    }

    // The tier of the service at place i of the answer.
    #[tactic(auto, unfolding(crate::specs::Listing::dealt), using(crate::proofs::Bounds::service_le))]
    pub fn service_tier(&self, i: u8, s: &Service) -> Tier
        ensures { result ≡ tiered (dealt self.now.rules (tier_items (service_runs self.now.rules self.now.queries (same_class self.now.same) i s.now))) }
    {
        dealt_tier(self.service_runs(i, s), prefers_six(self.rules.preference))
    }

    // The last tier: alternative services and origin.
    #[tactic(auto, unfolding(crate::specs::Listing::dealt), using(crate::proofs::Bounds::last_le))]
    pub fn last_tier(&self, alts: Alts) -> Tier
        ensures { result ≡ tiered (dealt self.now.rules (tier_items (last_runs self.now.rules alts self.now.queries (same_class self.now.same)))) }
    {
        dealt_tier(self.last_runs(alts), prefers_six(self.rules.preference))
    }
}
