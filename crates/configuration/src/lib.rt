#![tactic(auto)]
// The configuration body (rule B.8). A first pass finds the first fault, or says where things stand; a second copies the alternative
// services and the names from there.
ghost use Rattle.std.specs.Prelude.{◌≡◌};
ghost use Rattle.numbers.specs.Shown as numbers;
ghost use Rattle.parts.specs.Reading.{read, next, field};
ghost use Rattle.parts.specs.Shown.{shown};
ghost use Rattle.bodies.specs.Events.{fault_of, fault_shown};
ghost use Rattle.configuration.specs.Configuration.{literal_by, origin_at, alt_host_at, version_of, alt, preference_of, choices, front, multiplier_at, pace, mode_of, flagged, back, host_in, set_up, rest_at, fields_at, setup_at};
ghost use Rattle.configuration.specs.Filling.{alt_host, alt_of, host_name, no_alternatives, alts_in, names_with, configured_in};
ghost use Rattle.configuration.specs.declared.HostSpan.TheVariants.{Named};

use numbers::field::{Span, read_at_most, read_name, read_origin};
use numbers::number::read_number;
use numbers::refusal::Refusal;
use parts::address::{Items, read_four, read_six};
use parts::field::{read_port, read_versions};
use parts::reading::{Fault, Reading, field};
use parts::room::name_of;
use parts::row::{Kind, read_row};
use records::names::{Name, Names, no_name, no_names};
use records::rules::{
    Alt, AltHost, Alts, Host, Mode, Port, Preference, Rules, Timing, Version, Versions, no_alts,
};

// A host, with its name where it stands; an alternative service may have none.
#[derive(Clone, Copy)]
pub enum HostSpan {
    Absent,
    Named(Span),
    V4(u32),
    V6(u64, u64),
}

// An alternative service, with its name where it stands.
#[derive(Clone, Copy)]
pub struct AltSpan {
    pub host: HostSpan,
    pub port: Port,
    pub version: Version,
}

// What comes before the alternative services.
#[derive(Clone, Copy)]
pub struct Front {
    pub port: u16,
    pub host: HostSpan,
    pub versions: Versions,
    pub preference: Preference,
}

#[derive(Clone, Copy)]
pub struct Pace {
    pub resolution: u64,
    pub delay: u64,
    pub multiplier: u32,
}

// What comes after them.
#[derive(Clone, Copy)]
pub struct Back {
    pub timing: Timing,
    pub ech: bool,
    pub mode: Mode,
}

// A sound configuration: its rules, and where the names and the alternative services stand.
#[derive(Clone, Copy)]
pub struct Setup {
    pub rules: Rules,
    pub timing: Timing,
    pub origin: HostSpan,
    pub alts: Items,
}

// The names of the alternative services, in their order.
#[derive(Clone, Copy)]
pub struct AltNames {
    pub list: [Name; 4],
}

#[derive(Clone, Copy)]
pub struct Alternatives {
    pub alts: Alts,
    pub names: AltNames,
}

// What a configuration holds beside its rules.
#[derive(Clone, Copy)]
pub struct Configured {
    pub alts: Alts,
    pub names: Names,
}

// A host's name, which stands at the place at.
fn named(at: usize, name: Result<(Span, usize), Refusal>) -> Reading<HostSpan>
    ensures { shown result ≡ next (field at (numbers.shown name)) (λ b end. read (Named b) end) }
{
    let (b, end) = field(at, name)?;
    Ok((HostSpan::Named(b), end))
}

// A host that isn't a name.
#[tactic(auto, unfolding(crate::specs::Configuration::literal_by))]
fn read_literal(s: &[u8], kind: u64, at: usize) -> Reading<HostSpan>
    ensures { shown result ≡ literal_by s.now kind at }
{
    match kind {
        1 => {
            let (a, end) = read_four(s, at)?;
            let x = (a.lo % 4294967296) as u32;
            Ok((HostSpan::V4(x), end))
        }
        2 => {
            let (a, end) = read_six(s, at)?;
            Ok((HostSpan::V6(a.hi, a.lo), end))
        }
        _ => Ok((HostSpan::Absent, at)),
    }
}

// This and the next differ in the last kind and in the reader of the name. One function over that reader is no plainer: its clause
// would have to hold for every limit of a name.
#[tactic(auto, unfolding(crate::specs::Configuration::origin_at, crate::specs::Configuration::host_by))]
fn read_origin_host(s: &[u8], at: usize) -> Reading<HostSpan>
    ensures { shown result ≡ origin_at s.now at }
{
    let (kind, start) = field(at, read_at_most(s, at, 2, Refusal::OutOfRange))?;
    if kind == 0 {
        return named(start, read_origin(s, start));
    }
    read_literal(s, kind, start)
}

#[tactic(auto, unfolding(crate::specs::Configuration::alt_host_at, crate::specs::Configuration::host_by))]
fn read_alt_host(s: &[u8], at: usize) -> Reading<HostSpan>
    ensures { shown result ≡ alt_host_at s.now at }
{
    let (kind, start) = field(at, read_at_most(s, at, 3, Refusal::OutOfRange))?;
    if kind == 0 {
        return named(start, read_name(s, start));
    }
    read_literal(s, kind, start)
}

#[tactic(auto, unfolding(crate::specs::Configuration::version_of))]
fn version_of(v: u64) -> Version
    ensures { result ≡ version_of v }
{
    match v {
        0 => Version::H3,
        1 => Version::H2,
        _ => Version::H1,
    }
}

// An alternative service: host, port, version.
#[tactic(auto, unfolding(crate::specs::Configuration::alt))]
fn read_alt(s: &[u8], at: usize) -> Reading<AltSpan>
    ensures { shown result ≡ alt s.now at }
{
    let (host, q) = read_alt_host(s, at)?;
    let (port, last) = read_port(s, q)?;
    let (v, end) = field(last, read_at_most(s, last, 2, Refusal::OutOfRange))?;
    Ok((
        AltSpan {
            host,
            port,
            version: version_of(v),
        },
        end,
    ))
}

// The kind of a row of alternative services.
struct AltKind;

impl Kind<AltSpan> for AltKind {
    ghost told = { λ _. alt };

    fn read(&self, s: &[u8], at: usize) -> Reading<AltSpan> {
        read_alt(s, at)
    }
}

#[tactic(auto, unfolding(crate::specs::Configuration::preference_of))]
fn preference_of(v: u64) -> Preference
    ensures { result ≡ preference_of v }
{
    match v {
        0 => Preference::DualStackPreferV6,
        1 => Preference::DualStackPreferV4,
        2 => Preference::Ipv6Only,
        _ => Preference::Ipv4Only,
    }
}

// Versions and preference.
#[tactic(auto, unfolding(crate::specs::Configuration::choices))]
fn read_choices(s: &[u8], at: usize, port: u16, host: HostSpan) -> Reading<Front>
    ensures { shown result ≡ choices s.now port host at }
{
    let (versions, q) = read_versions(s, at)?;
    let (v, end) = field(q, read_at_most(s, q, 3, Refusal::OutOfRange))?;
    Ok((
        Front {
            port,
            host,
            versions,
            preference: preference_of(v),
        },
        end,
    ))
}

// Port, host, versions, preference.
#[tactic(auto, unfolding(crate::specs::Configuration::front, numbers::specs::Fields::at_most))]
fn read_front(s: &[u8]) -> Reading<Front>
    ensures { shown result ≡ front s.now }
{
    let (v, q) = field(0, read_at_most(s, 0, 65535, Refusal::OutOfRange))?;
    let port = v as u16;
    let (host, last) = read_origin_host(s, q)?;
    read_choices(s, last, port, host)
}

#[tactic(auto, unfolding(crate::specs::Configuration::multiplier_at, numbers::specs::Fields::at_most))]
fn read_multiplier(s: &[u8], at: usize) -> Reading<u32>
    ensures { shown result ≡ multiplier_at s.now at }
{
    let (v, end) = field(at, read_at_most(s, at, 4294967295, Refusal::OutOfRange))?;
    if v == 0 {
        return Err(Fault {
            refusal: Refusal::OutOfRange,
            place: at,
        });
    }
    Ok((v as u32, end))
}

// Resolution delay, attempt delay, multiplier.
#[tactic(auto, unfolding(crate::specs::Configuration::pace))]
fn read_pace(s: &[u8], at: usize) -> Reading<Pace>
    ensures { shown result ≡ pace s.now at }
{
    let (resolution, q) = field(at, read_number(s, at))?;
    let (delay, last) = field(q, read_number(s, q))?;
    let (multiplier, end) = read_multiplier(s, last)?;
    Ok((
        Pace {
            resolution,
            delay,
            multiplier,
        },
        end,
    ))
}

#[tactic(auto, unfolding(crate::specs::Configuration::mode_of))]
fn mode_of(v: u64) -> Mode
    ensures { result ≡ mode_of v }
{
    match v {
        0 => Mode::Ip,
        1 => Mode::Name,
        _ => Mode::NameWithHttpsRr,
    }
}

// Flags and mode.
#[tactic(auto, unfolding(crate::specs::Configuration::flagged))]
fn read_flags(s: &[u8], at: usize, t: Pace) -> Reading<Back>
    ensures { shown result ≡ flagged s.now t at }
{
    let (flags, q) = field(at, read_at_most(s, at, 3, Refusal::OutOfRange))?;
    let (v, end) = field(q, read_at_most(s, q, 2, Refusal::OutOfRange))?;
    let timing = Timing {
        wait: 2 <= flags,
        multiplier: t.multiplier,
        resolution: t.resolution,
        delay: t.delay,
    };
    Ok((
        Back {
            timing,
            ech: flags % 2 == 1,
            mode: mode_of(v),
        },
        end,
    ))
}

// Delays, multiplier, flags, mode.
#[tactic(auto, unfolding(crate::specs::Configuration::back))]
fn read_back(s: &[u8], at: usize) -> Reading<Back>
    ensures { shown result ≡ back s.now at }
{
    let (t, q) = read_pace(s, at)?;
    read_flags(s, q, t)
}

fn host_in(h: HostSpan) -> Host
    ensures { result ≡ host_in h }
{
    match h {
        HostSpan::Absent => Host::Named,
        HostSpan::Named(_) => Host::Named,
        HostSpan::V4(x) => Host::V4(x),
        HostSpan::V6(x, y) => Host::V6(x, y),
    }
}

#[tactic(auto, unfolding(crate::specs::Configuration::set_up))]
fn set_up(f: Front, alts: Items, b: Back) -> Setup
    ensures { result ≡ set_up f alts b }
{
    let rules = Rules {
        host: host_in(f.host),
        port: f.port,
        versions: f.versions,
        preference: f.preference,
        mode: b.mode,
        ech: b.ech,
    };
    Setup {
        rules,
        timing: b.timing,
        origin: f.host,
        alts,
    }
}

// What follows the alternative services, up to the mode.
#[tactic(auto, unfolding(crate::specs::Configuration::rest_at))]
fn read_rest(s: &[u8], at: usize, f: Front, alts: Items) -> Reading<Setup>
    ensures { shown result ≡ rest_at s.now f alts at }
{
    let (b, end) = read_back(s, at)?;
    Ok((set_up(f, alts, b), end))
}

// The fields that every edition has.
#[tactic(auto, unfolding(crate::specs::Configuration::fields_at))]
fn read_fields(s: &[u8]) -> Reading<Setup>
    ensures { shown result ≡ fields_at s.now }
{
    let (f, q) = read_front(s)?;
    let (alts, last) = read_row(&AltKind, s, q, 4)?;
    read_rest(s, last, f, alts)
}

// A configuration body: its first fault, or what it says. A later edition reads the fields that it adds before the end is tested.
#[tactic(auto, unfolding(crate::specs::Configuration::setup_at, crate::specs::Configuration::edition_at))]
pub fn read_configuration(s: &[u8]) -> Reading<Setup>
    ensures { shown result ≡ setup_at s.now }
{
    let (c, end) = read_fields(s)?;
    if end < s.len() {
        return Err(Fault {
            refusal: Refusal::Trailing,
            place: end,
        });
    }
    Ok((c, end))
}

// Its first fault, or where it ends.
pub fn configuration_fault(s: &[u8]) -> Result<usize, Fault>
    ensures { fault_shown result ≡ fault_of (setup_at s.now) }
{
    let (_, end) = read_configuration(s)?;
    Ok(end)
}

fn alt_host(h: HostSpan) -> AltHost
    ensures { result ≡ alt_host h }
{
    match h {
        HostSpan::Absent => AltHost::Origin,
        HostSpan::Named(_) => AltHost::Own(Host::Named),
        HostSpan::V4(x) => AltHost::Own(Host::V4(x)),
        HostSpan::V6(x, y) => AltHost::Own(Host::V6(x, y)),
    }
}

#[tactic(auto, unfolding(crate::specs::Filling::alt_of))]
fn alt_of(a: AltSpan) -> Alt
    ensures { result ≡ alt_of a }
{
    Alt {
        host: alt_host(a.host),
        port: a.port,
        version: a.version,
    }
}

// The name of a host; empty where it has none.
fn host_name(s: &[u8], h: HostSpan) -> Name
    ensures { result ≡ host_name s.now h }
{
    match h {
        HostSpan::Absent => no_name(),
        HostSpan::Named(b) => name_of(s, b),
        HostSpan::V4(_) => no_name(),
        HostSpan::V6(_, _) => no_name(),
    }
}

#[tactic(auto, unfolding(crate::specs::Filling::no_alternatives))]
fn no_alternatives() -> Alternatives
    ensures { result ≡ no_alternatives }
{
    let n = no_name();
    Alternatives {
        alts: no_alts(),
        names: AltNames { list: [n; 4] },
    }
}

// The alternative services, copied from where they stand.
fn fill_alts(s: &[u8], l: Items) -> Alternatives
    ensures { result ≡ alts_in s.now l }
{
    let mut out = no_alternatives();
    if 4 < l.count {
        return out;
    }
    let mut p = l.first;
    for i in 0..l.count {
        let Ok((a, next)) = read_alt(s, p) else {
            return no_alternatives();
        };
        out.alts.list[i] = alt_of(a);
        out.names.list[i] = host_name(s, a.host);
        p = next;
    }
    out.alts.count = l.count;
    out
}

// The origin's name, then those of the alternative services.
#[tactic(auto, unfolding(crate::specs::Filling::names_with, records::specs::Names::no_names))]
fn names_with(origin: Name, own: AltNames) -> Names
    ensures { result ≡ names_with origin own }
{
    let [a, b, c, d] = own.list;
    let mut out = no_names();
    out.list[0] = origin;
    out.list[1] = a;
    out.list[2] = b;
    out.list[3] = c;
    out.list[4] = d;
    out
}

// The alternative services and the names of a sound configuration.
#[tactic(auto, using(crate::proofs::Rooms::configured))]
pub fn fill_configuration(s: &[u8], c: Setup) -> Configured
    ensures { result ≡ configured_in s.now c }
{
    let origin = host_name(s, c.origin);
    let l = fill_alts(s, c.alts);
    let names = names_with(origin, l.names);
    Configured {
        alts: l.alts,
        names,
    }
}
