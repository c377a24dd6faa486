// What the host says: an event in words.
use bodies::{Event, addresses_of, offered_of};
use parts::reading::Reading;
use records::names::{Ech, EchPlace, Name};
use records::queries::{Addr, Kind};
use records::services::Service;
use std::fmt;
use telling::address::{Four, Six};
use telling::piece::{Letters, Sealed, part};
use wording::words::{PortOf, VersionSet, kind};

// A service, with its name and its ECH bytes.
#[derive(Clone, Copy)]
struct Offer<'a> {
    service: &'a Service,
    name: &'a Name,
    ech: &'a Ech,
}

impl fmt::Display for Offer<'_> {
    fn fmt<W: fmt::Write>(&self, f: &mut fmt::Formatter<W>) -> fmt::Result {
        let s = self.service;
        let name = Letters(self.name.as_bytes());
        write!(f, "priority {}, {name}", s.priority)?;
        write!(f, ", {}, {}", VersionSet(s.versions), PortOf(s.port))?;
        match s.ech {
            EchPlace::Without => f.write_str(", no ECH")?,
            EchPlace::At(_) => write!(f, ", {}", Sealed(self.ech.as_bytes()))?,
        }
        for a in s.v4.iter().take(s.n4) {
            write!(f, ", hint {}", Four(*a as u64))?;
        }
        for a in s.v6.iter().take(s.n6) {
            let six = Six {
                hi: a.hi,
                lo: a.lo,
                scope: 0,
            };
            write!(f, ", hint {six}")?;
        }
        Ok(())
    }
}

// An address of a record of this type.
#[derive(Clone, Copy)]
struct Address<'a> {
    kind: Kind,
    address: &'a Addr,
}

impl fmt::Display for Address<'_> {
    fn fmt<W: fmt::Write>(&self, f: &mut fmt::Formatter<W>) -> fmt::Result {
        let a = self.address;
        match self.kind {
            Kind::Https => Ok(()),
            Kind::Aaaa => {
                let six = Six {
                    hi: a.hi,
                    lo: a.lo,
                    scope: a.scope,
                };
                write!(f, "{six}")
            }
            Kind::A => write!(f, "{}", Four(a.lo)),
        }
    }
}

// An event, and the body that says it; of a body that isn't sound only its length.
#[derive(Clone, Copy)]
pub struct Said<'a> {
    pub body: &'a [u8],
    pub read: Reading<Event>,
}

impl Said<'_> {
    // The first n services of an answer.
    fn offers<W: fmt::Write>(
        &self,
        f: &mut fmt::Formatter<W>,
        event: Event,
        n: usize,
    ) -> fmt::Result {
        if n == 0 {
            return f.write_str(": no service");
        }
        let o = offered_of(self.body, event);
        let kept = o.services.list.iter().zip(&o.names.list).zip(&o.echs.list);
        for (i, ((service, name), ech)) in kept.take(n).enumerate() {
            let offer = Offer { service, name, ech };
            write!(f, "{}{offer}", if i == 0 { ": " } else { "; " })?;
        }
        Ok(())
    }

    // The first n addresses of an answer.
    fn addresses<W: fmt::Write>(
        &self,
        f: &mut fmt::Formatter<W>,
        event: Event,
        kind: Kind,
        n: usize,
    ) -> fmt::Result {
        if n == 0 {
            return f.write_str(": no address");
        }
        let l = addresses_of(self.body, event);
        for (i, address) in l.list.iter().take(n).enumerate() {
            let address = Address { kind, address };
            write!(f, "{}{address}", if i == 0 { ": " } else { ", " })?;
        }
        Ok(())
    }

    fn event<W: fmt::Write>(&self, f: &mut fmt::Formatter<W>, event: Event) -> fmt::Result {
        match event {
            Event::Call => f.write_str("calls"),
            Event::Fails(k, id, stale) => write!(f, "{}: failed", Answered { kind: k, id, stale }),
            Event::Holds(k, id, stale, items) => {
                write!(f, "{}", Answered { kind: k, id, stale })?;
                match k {
                    Kind::Https => self.offers(f, event, items.count),
                    _ => self.addresses(f, event, k, items.count),
                }
            }
            Event::Success(id) => write!(f, "attempt {id} succeeded"),
            Event::Failure(id) => write!(f, "attempt {id} failed"),
            Event::EchRetry(id, b) => {
                let ech = Sealed(part(self.body, b));
                write!(f, "attempt {id} failed, retry with {ech}")
            }
        }
    }
}

impl fmt::Display for Said<'_> {
    fn fmt<W: fmt::Write>(&self, f: &mut fmt::Formatter<W>) -> fmt::Result {
        match self.read {
            Ok((event, _)) => self.event(f, event),
            Err(_) => {
                let n = self.body.len();
                write!(f, "a body of length {n} that isn't sound")
            }
        }
    }
}

// The begin of an answer's words.
#[derive(Clone, Copy)]
struct Answered {
    kind: Kind,
    id: u64,
    stale: bool,
}

impl fmt::Display for Answered {
    fn fmt<W: fmt::Write>(&self, f: &mut fmt::Formatter<W>) -> fmt::Result {
        let stale = if self.stale { ", stale" } else { "" };
        write!(f, "answer to query {}, {}{stale}", self.id, kind(self.kind))
    }
}
