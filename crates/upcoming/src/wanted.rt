// Which query is wanted next: the origin's, those for the services' targets, those for the alternative services.
ghost use Rattle.std.specs.Prelude.{◌+◌, ◌≡◌};
ghost use Rattle.records.specs.Classes.{same_class};
ghost use Rattle.upcoming.specs.Wanted.{is_asked, asked_for, is_missing, missing, place_wanted, origin_wanted, target_wanted, targets_wanted, own_name, alt_wanted, alts_wanted, or_wanted, wanted_by};

use records::names::{SameNames, same_class};
use records::queries::{Kind, Queries};
use records::rules::{AltHost, Alts, Mode, Preference, Rules, allows_four, allows_six, is_named};
use records::services::{Service, Services, any_ech, is_usable};
use starting::surveys::{Asks, Kinds, either};
use state::https_place;
use state::members::in_use;

// A type and a name by place, if a query is wanted.
pub type Wanted = Option<(Kind, u8)>;

// Which address types were asked for a name.
#[derive(Clone, Copy)]
pub struct Families {
    pub six: bool,
    pub four: bool,
}

// Whether a record of a type and name is one of type k for the name at a place.
#[tactic(auto, unfolding(crate::specs::Wanted::is_asked))]
fn is_asked(same: SameNames, k: Kind, place: u8, kind: Kind, name: u8) -> bool
    ensures { result ≡ is_asked (same_class same) k place kind name }
{
    kind == k && same_class(same, name, place)
}

fn asked_for(queries: &Queries, same: SameNames, place: u8) -> Families
    ensures { result ≡ asked_for queries.now (same_class same) place }
{
    let mut six = false;
    let mut four = false;
    for q in in_use(&queries.list, queries.count) {
        six = either(six, is_asked(same, Kind::Aaaa, place, q.kind, q.name));
        four = either(four, is_asked(same, Kind::A, place, q.kind, q.name));
    }
    Families { six, four }
}

fn is_missing(allowed: bool, was: bool) -> bool
    ensures { result ≡ is_missing allowed was }
{
    allowed && !was
}

// The first address type that is allowed and was not asked for: AAAA before A, whatever is preferred.
#[tactic(auto, unfolding(crate::specs::Wanted::missing))]
fn missing(p: Preference, asked: Families, place: u8) -> Wanted
    ensures { result ≡ missing p asked place }
{
    if is_missing(allows_six(p), asked.six) {
        return Some((Kind::Aaaa, place));
    }
    if is_missing(allows_four(p), asked.four) {
        return Some((Kind::A, place));
    }
    None
}

#[tactic(auto, unfolding(crate::specs::Wanted::place_wanted))]
fn place_wanted(p: Preference, queries: &Queries, same: SameNames, place: u8) -> Wanted
    ensures { result ≡ place_wanted p queries.now (same_class same) place }
{
    missing(p, asked_for(queries, same, place), place)
}

// HTTPS for a named origin, then in mode Ip its addresses. A record of the type is the origin's: those come first.
#[tactic(auto, unfolding(crate::specs::Wanted::origin_wanted))]
pub fn origin_wanted(rules: Rules, k: Kinds) -> Wanted
    ensures { result ≡ origin_wanted rules k }
{
    if !is_named(rules.host) {
        return None;
    }
    if !k.https {
        return Some((Kind::Https, https_place(rules)));
    }
    match rules.mode {
        Mode::Ip => {
            let asked = Families {
                six: k.aaaa,
                four: k.a,
            };
            missing(rules.preference, asked, 0)
        }
        Mode::Name | Mode::NameWithHttpsRr => None,
    }
}

// Services without ECH are skipped if any has it.
#[tactic(auto, unfolding(crate::specs::Wanted::target_wanted))]
fn target_wanted(
    p: Preference,
    queries: &Queries,
    same: SameNames,
    sealed: bool,
    s: Service,
) -> Wanted
    ensures { result ≡ target_wanted p queries.now (same_class same) sealed s }
{
    if is_usable(sealed, s.ech) {
        return place_wanted(p, queries, same, s.name);
    }
    None
}

// In the answer's order.
fn targets_wanted(rules: Rules, queries: &Queries, services: Services, same: SameNames) -> Wanted
    ensures { result ≡ targets_wanted rules queries.now services (same_class same) }
{
    let p = rules.preference;
    let sealed = any_ech(rules.ech, services);
    for &s in in_use(&services.list, services.count) {
        let w = target_wanted(p, queries, same, sealed, s);
        if w.is_some() {
            return w;
        }
    }
    None
}

fn is_own_name(h: AltHost) -> bool
    ensures { result ≡ own_name h }
{
    match h {
        AltHost::Origin => false,
        AltHost::Own(own) => is_named(own),
    }
}

#[tactic(auto, unfolding(crate::specs::Wanted::alt_wanted))]
fn alt_wanted(p: Preference, queries: &Queries, same: SameNames, place: u8, h: AltHost) -> Wanted
    ensures { result ≡ alt_wanted p queries.now (same_class same) place h }
{
    if is_own_name(h) {
        return place_wanted(p, queries, same, place);
    }
    None
}

// Alternative services that have a name of their own.
fn alts_wanted(rules: Rules, alts: Alts, queries: &Queries, same: SameNames) -> Wanted
    ensures { result ≡ alts_wanted rules alts queries.now (same_class same) }
{
    let p = rules.preference;
    for (i, a) in in_use(&alts.list, alts.count).iter().enumerate() {
        let w = alt_wanted(p, queries, same, (i + 1) as u8, a.host);
        if w.is_some() {
            return w;
        }
    }
    None
}

// The targets' and the alternatives'.
fn others_wanted(
    rules: Rules,
    alts: Alts,
    queries: &Queries,
    services: Services,
    same: SameNames,
) -> Wanted
    ensures { result ≡ or_wanted (targets_wanted rules queries.now services (same_class same)) (alts_wanted rules alts queries.now (same_class same)) }
{
    let t = targets_wanted(rules, queries, services, same);
    if t.is_some() {
        return t;
    }
    alts_wanted(rules, alts, queries, same)
}

// `NameWithHttpsRr` asks for the HTTPS record only, `Name` for none.
#[tactic(auto, unfolding(crate::specs::Wanted::wanted_by))]
pub fn next_query(
    rules: Rules,
    alts: Alts,
    queries: Queries,
    services: Services,
    asks: Asks,
    same: SameNames,
) -> Wanted
    ensures { result ≡ wanted_by asks.asked rules alts queries services (same_class same) }
{
    match rules.mode {
        Mode::Ip => {
            let o = origin_wanted(rules, asks.asked);
            if o.is_some() {
                return o;
            }
            others_wanted(rules, alts, &queries, services, same)
        }
        Mode::Name => None,
        Mode::NameWithHttpsRr => origin_wanted(rules, asks.asked),
    }
}
