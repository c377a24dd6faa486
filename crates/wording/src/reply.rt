// What the machine says: an answer in words.
use super::words::{Refused, kind, rank};
use bodies::Event;
use machine::grant::Table;
use machine::wish::Reason;
use parts::address::{read_four, read_six};
use parts::reading::Reading;
use reader::{Answer, EndpointSpan, TargetSpan, answer_at};
use std::fmt;
use telling::address::{Four, Six};
use telling::piece::{Letters, Millis, Sealed, part};

// Where an attempt goes: an address, one of IPv6 in brackets, or a name.
#[derive(Clone, Copy)]
struct Target<'a> {
    bytes: &'a [u8],
    target: TargetSpan,
}

impl fmt::Display for Target<'_> {
    fn fmt<W: fmt::Write>(&self, f: &mut fmt::Formatter<W>) -> fmt::Result {
        match self.target {
            TargetSpan::V4(b) => match read_four(self.bytes, b.start) {
                Ok((a, _)) => write!(f, "{}", Four(a.lo)),
                Err(_) => Ok(()),
            },
            TargetSpan::V6(b, scope) => match read_six(self.bytes, b.start) {
                Ok((a, _)) => {
                    let six = Six {
                        hi: a.hi,
                        lo: a.lo,
                        scope,
                    };
                    write!(f, "[{six}]")
                }
                Err(_) => Ok(()),
            },
            TargetSpan::Named(b) => write!(f, "{}", Letters(part(self.bytes, b))),
        }
    }
}

#[derive(Clone, Copy)]
struct Endpoint<'a> {
    bytes: &'a [u8],
    endpoint: EndpointSpan,
}

impl fmt::Display for Endpoint<'_> {
    fn fmt<W: fmt::Write>(&self, f: &mut fmt::Formatter<W>) -> fmt::Result {
        let e = self.endpoint;
        let target = Target {
            bytes: self.bytes,
            target: e.target,
        };
        write!(f, "{} to {target}:{}, ", rank(e.rank), e.port)?;
        match e.ech {
            None => f.write_str("no ECH"),
            Some(b) => write!(f, "{}", Sealed(part(self.bytes, b))),
        }
    }
}

pub fn failed(r: Reason) -> &'static str {
    match r {
        Reason::Dns => "failed: DNS, there was nothing to attempt",
        Reason::Connection => "failed: connection, no attempt succeeded",
    }
}

fn full(t: Table) -> &'static str {
    match t {
        Table::Queries => "full: no room for another query",
        Table::Attempts => "full: no room for another attempt",
    }
}

// An answer, and the bytes in which its names and ECH bytes stand.
#[derive(Clone, Copy)]
pub struct Reply<'a> {
    pub bytes: &'a [u8],
    pub answer: Answer,
}

impl fmt::Display for Reply<'_> {
    fn fmt<W: fmt::Write>(&self, f: &mut fmt::Formatter<W>) -> fmt::Result {
        let bytes = self.bytes;
        match self.answer {
            Answer::Waiting => f.write_str("waiting"),
            Answer::Query(id, k, stale, name) => {
                let refresh = if stale { "" } else { ", a refresh" };
                let name = Letters(part(bytes, name));
                write!(f, "query {id}: {} of {name}{refresh}", kind(k))
            }
            Answer::Timer(ns) => write!(f, "timer of {ns} ns ({} ms)", Millis(ns)),
            Answer::Attempt(id, retry, endpoint) => {
                let retry = if retry { ", an ECH retry" } else { "" };
                write!(f, "attempt {id}{retry}: {}", Endpoint { bytes, endpoint })
            }
            Answer::Cancel(id) => write!(f, "cancel attempt {id}"),
            Answer::Succeeded => f.write_str("succeeded"),
            Answer::Failed(r) => f.write_str(failed(r)),
            Answer::Full(t) => f.write_str(full(t)),
            Answer::Taken(0) => f.write_str("accepted"),
            Answer::Taken(n) => write!(f, "refused, {}", Refused(n)),
        }
    }
}

// The answer at a place.
#[derive(Clone, Copy)]
pub struct ReplyAt<'a> {
    pub answers: &'a [u8],
    pub place: usize,
}

impl fmt::Display for ReplyAt<'_> {
    fn fmt<W: fmt::Write>(&self, f: &mut fmt::Formatter<W>) -> fmt::Result {
        let bytes = self.answers;
        match answer_at(bytes, self.place) {
            Ok((answer, _)) => write!(f, "{}", Reply { bytes, answer }),
            Err(_) => Ok(()),
        }
    }
}

// Where the fault of a body is that isn't sound; nothing of a sound one.
#[derive(Clone, Copy)]
pub struct FaultPlace(pub Reading<Event>);

impl fmt::Display for FaultPlace {
    fn fmt<W: fmt::Write>(&self, f: &mut fmt::Formatter<W>) -> fmt::Result {
        match self.0 {
            Ok(_) => Ok(()),
            Err(e) => write!(f, "; at byte {} of the body", e.place),
        }
    }
}
