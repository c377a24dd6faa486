// The next endpoint: the first retry, or the first of the listing, that wasn't attempted.
ghost use Rattle.std.specs.Prelude.{◌≡◌};
ghost use Rattle.records.specs.Classes.{same_class};
ghost use Rattle.listing.specs.Room.{tier_members};
ghost use Rattle.upcoming.specs.Alike.{alike_endpoints};
ghost use Rattle.upcoming.specs.Next.{attempted, first_next, if_new, retried_with, retry_new, item_new, next_retry, next_endpoint};

use super::alike::{Alike, SameEchs, SameHosts, alike_endpoints};
use listing::{Tier, tier_at, tier_count};
use records::endpoints::Endpoint;
use records::names::EchPlace;
use records::queries::{Answers, Queries};
use records::references::endpoint_at;
use records::rules::{Alts, Rules};
use records::services::Services;
use state::attempts::{Attempts, Retries};
use state::members::in_use;

// The endpoint that is attempted next, if any.
pub type Next = Option<Endpoint>;

fn was_attempted(attempts: &Attempts, hosts: SameHosts, echs: SameEchs, e: Endpoint) -> bool
    ensures { result ≡ attempted (alike_endpoints hosts echs) attempts.now e }
{
    for a in in_use(&attempts.list, attempts.count) {
        if alike_endpoints(hosts, echs, e, a.endpoint) {
            return true;
        }
    }
    false
}

pub fn is_attempted(attempts: Attempts, hosts: SameHosts, echs: SameEchs, e: Endpoint) -> bool
    ensures { result ≡ attempted (alike_endpoints hosts echs) attempts e }
{
    was_attempted(&attempts, hosts, echs, e)
}

#[tactic(auto, unfolding(crate::specs::Next::if_new))]
fn if_new(attempts: &Attempts, hosts: SameHosts, echs: SameEchs, e: Endpoint) -> Next
    ensures { result ≡ if_new (alike_endpoints hosts echs) attempts.now e }
{
    if was_attempted(attempts, hosts, echs, e) {
        return None;
    }
    Some(e)
}

// An attempt's endpoint with the ECH bytes that came for it.
fn retried(e: Endpoint, p: u8) -> Endpoint
    ensures { result ≡ retried_with e p }
{
    Endpoint {
        ech: EchPlace::At(p),
        ..e
    }
}

// Those of attempt p lie at place 8 + p.
#[tactic(auto, unfolding(crate::specs::Next::retry_new))]
fn retry_new(attempts: &Attempts, hosts: SameHosts, echs: SameEchs, p: u8) -> Next
    ensures { result ≡ retry_new (alike_endpoints hosts echs) attempts.now p }
{
    if p < 32 {
        let was = attempts.list[p as usize].endpoint;
        return if_new(attempts, hosts, echs, retried(was, 8 + p));
    }
    None
}

// The first retry, in order of arrival, whose endpoint wasn't attempted.
pub fn next_retry(attempts: Attempts, retries: Retries, alike: Alike) -> Next
    ensures { result ≡ next_retry (alike_endpoints alike.hosts alike.echs) attempts retries }
{
    for &p in in_use(&retries.list, retries.count) {
        let w = retry_new(&attempts, alike.hosts, alike.echs, p);
        if w.is_some() {
            return w;
        }
    }
    None
}

// The first of a tier that wasn't attempted.
fn first_new(
    rules: Rules,
    alts: Alts,
    answers: Answers,
    services: Services,
    attempts: &Attempts,
    hosts: SameHosts,
    echs: SameEchs,
    tier: Tier,
) -> Next
    ensures { result ≡ first_next (item_new (alike_endpoints hosts echs) rules alts answers services attempts.now) (tier_members tier) }
{
    for &x in in_use(&tier.list, tier.count) {
        let e = endpoint_at(rules, alts, answers, services, x);
        let w = if_new(attempts, hosts, echs, e);
        if w.is_some() {
            return w;
        }
    }
    None
}

// The first of the listing that wasn't attempted, tier by tier.
pub fn next_endpoint(
    rules: Rules,
    alts: Alts,
    queries: Queries,
    answers: Answers,
    services: Services,
    attempts: Attempts,
    alike: Alike,
) -> Next
    ensures { result ≡ next_endpoint (alike_endpoints alike.hosts alike.echs) rules alts queries answers services attempts (same_class alike.names) }
{
    let same = alike.names;
    let hosts = alike.hosts;
    let echs = alike.echs;
    let n = tier_count(rules, services);
    for k in 0..n {
        let t = tier_at(rules, alts, queries, services, same, k as u8);
        let w = first_new(rules, alts, answers, services, &attempts, hosts, echs, t);
        if w.is_some() {
            return w;
        }
    }
    None
}
