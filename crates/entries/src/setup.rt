// What a configuration says.
use configuration::{HostSpan, Setup, fill_configuration};
use records::names::Name;
use records::rules::{Alt, AltHost, Host, Rules, Timing};
use std::fmt;
use telling::address::{Four, Six};
use telling::piece::{Letters, part};
use wording::words::{PortOf, VersionSet, mode, preference, version};

// The origin's host, as a configuration's body has it.
#[derive(Clone, Copy)]
pub struct Origin<'a> {
    pub body: &'a [u8],
    pub host: HostSpan,
}

impl fmt::Display for Origin<'_> {
    fn fmt<W: fmt::Write>(&self, f: &mut fmt::Formatter<W>) -> fmt::Result {
        match self.host {
            HostSpan::Absent => Ok(()),
            HostSpan::Named(b) => write!(f, "{}", Letters(part(self.body, b))),
            HostSpan::V4(a) => write!(f, "{}", Four(a as u64)),
            HostSpan::V6(hi, lo) => write!(f, "{}", Six { hi, lo, scope: 0 }),
        }
    }
}

// An alternative service; the name is its own host's, where it has one.
#[derive(Clone, Copy)]
struct Alternative<'a> {
    alt: &'a Alt,
    name: &'a Name,
}

impl fmt::Display for Alternative<'_> {
    fn fmt<W: fmt::Write>(&self, f: &mut fmt::Formatter<W>) -> fmt::Result {
        let v = version(self.alt.version);
        write!(f, "; alternative service {v} at ")?;
        match self.alt.host {
            AltHost::Origin => f.write_str("the origin's host")?,
            AltHost::Own(Host::Named) => { write!(f, "{}", Letters(self.name.as_bytes()))? }
            AltHost::Own(Host::V4(a)) => write!(f, "{}", Four(a as u64))?,
            AltHost::Own(Host::V6(hi, lo)) => write!(f, "{}", Six { hi, lo, scope: 0 })?,
        }
        write!(f, ", {}", PortOf(self.alt.port))
    }
}

// What attempts are allowed.
#[derive(Clone, Copy)]
struct Allowed(Rules);

impl fmt::Display for Allowed {
    fn fmt<W: fmt::Write>(&self, f: &mut fmt::Formatter<W>) -> fmt::Result {
        let r = self.0;
        let ech = if r.ech { "on" } else { "off" };
        write!(f, ", port {}; {}", r.port, VersionSet(r.versions))?;
        write!(
            f,
            "; {}; {}; ECH {ech}",
            preference(r.preference),
            mode(r.mode)
        )
    }
}

#[derive(Clone, Copy)]
struct Pace(Timing);

impl fmt::Display for Pace {
    fn fmt<W: fmt::Write>(&self, f: &mut fmt::Formatter<W>) -> fmt::Result {
        let t = self.0;
        write!(f, "; resolution delay {} ns", t.resolution)?;
        write!(
            f,
            "; attempt delay {} ns, multiplier {}",
            t.delay, t.multiplier
        )?;
        if t.wait {
            f.write_str("; waits for an address of the preferred family")?;
        }
        Ok(())
    }
}

// A configuration, and its body.
#[derive(Clone, Copy)]
pub struct Configuration<'a> {
    pub body: &'a [u8],
    pub setup: Setup,
}

impl fmt::Display for Configuration<'_> {
    fn fmt<W: fmt::Write>(&self, f: &mut fmt::Formatter<W>) -> fmt::Result {
        let s = self.setup;
        let origin = Origin {
            body: self.body,
            host: s.origin,
        };
        write!(
            f,
            "Configuration: origin {origin}{}{}",
            Allowed(s.rules),
            Pace(s.timing)
        )?;
        let c = fill_configuration(self.body, s);
        // The first name is the origin's.
        let own = c.alts.list.iter().zip(c.names.list.iter().skip(1));
        for (alt, name) in own.take(c.alts.count) {
            write!(f, "{}", Alternative { alt, name })?;
        }
        Ok(())
    }
}
