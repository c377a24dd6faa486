// Names of what the tape has numbers for.
use records::endpoints::Rank;
use records::queries::Kind;
use records::rules::{Mode, Port, Preference, Version, Versions};
use std::fmt;

pub fn kind(k: Kind) -> &'static str {
    match k {
        Kind::Https => "HTTPS",
        Kind::Aaaa => "AAAA",
        Kind::A => "A",
    }
}

pub fn rank(r: Rank) -> &'static str {
    match r {
        Rank::H3 => "H3",
        Rank::H2OrH1 => "H2 or H1",
        Rank::H2 => "H2",
        Rank::H1 => "H1",
    }
}

pub fn version(v: Version) -> &'static str {
    match v {
        Version::H3 => "H3",
        Version::H2 => "H2",
        Version::H1 => "H1",
    }
}

pub fn preference(p: Preference) -> &'static str {
    match p {
        Preference::DualStackPreferV6 => "both families, IPv6 preferred",
        Preference::DualStackPreferV4 => "both families, IPv4 preferred",
        Preference::Ipv6Only => "IPv6 only",
        Preference::Ipv4Only => "IPv4 only",
    }
}

pub fn mode(m: Mode) -> &'static str {
    match m {
        Mode::Ip => "by address",
        Mode::Name => "by name",
        Mode::NameWithHttpsRr => "by name, with HTTPS records",
    }
}

// A set of versions.
#[derive(Clone, Copy)]
pub struct VersionSet(pub Versions);

impl fmt::Display for VersionSet {
    fn fmt<W: fmt::Write>(&self, f: &mut fmt::Formatter<W>) -> fmt::Result {
        let v = self.0;
        f.write_str("versions")?;
        if v.h3 {
            f.write_str(" H3")?;
        }
        if v.h2 {
            f.write_str(" H2")?;
        }
        if v.h1 {
            f.write_str(" H1")?;
        }
        if !(v.h3 || v.h2 || v.h1) {
            f.write_str(" none")?;
        }
        Ok(())
    }
}

// The port of an alternative service or of a service record.
#[derive(Clone, Copy)]
pub struct PortOf(pub Port);

impl fmt::Display for PortOf {
    fn fmt<W: fmt::Write>(&self, f: &mut fmt::Formatter<W>) -> fmt::Result {
        match self.0 {
            Port::Origin => f.write_str("the origin's port"),
            Port::Own(n) => write!(f, "port {n}"),
        }
    }
}

// A refusal's number, name and meaning.
#[derive(Clone, Copy)]
pub struct Refused(pub u64);

impl fmt::Display for Refused {
    fn fmt<W: fmt::Write>(&self, f: &mut fmt::Formatter<W>) -> fmt::Result {
        write!(f, "{} {}", self.0, meaning(self.0))
    }
}

// What refusals 1 to 6 say of bytes, 7 to 12 of an input, and 13 of the answers.
fn meaning(n: u64) -> &'static str {
    match n {
        1 => "Cut: the bytes end inside a field",
        2 => "BadNumber: a number isn't in its shortest form, or above 64 bits",
        3 => "OutOfRange: a kind, flag, number or length is outside its range",
        4 => "BadName: a name breaks the name rule",
        5 => "TooMany: a count or length is over its size",
        0 | 6 => "Trailing: bytes follow the last field",
        7 => "UnknownId: nothing that it could answer has this id",
        8 => "AlreadyAnswered: the query has its answer",
        9 => "WrongType: the query asked for another type",
        10 => "StaleRefresh: a refresh is answered as stale",
        11 => "EchNotSent: ECH is off, or the attempt sent none",
        12 => "AlreadyEnded: the attempt succeeded or failed before",
        _ => "NoRoom: the answer doesn't fit the buffer",
    }
}
