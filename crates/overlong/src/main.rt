// For the tests alone: shows what is on standard input as an entry, in letters and in one piece, and all and half of it as the origin in
// the head of a picture. It may be longer than a text, which no tape's is.
#![tactic(auto)]

use caption::heading::draw_head;
use caption::verdict::Verdict;
use configuration::{HostSpan, Setup};
use course::Course;
use entries::setup::Configuration;
use intake::read_full;
use numbers::field::Span;
use parts::address::Items;
use records::rules::{Host, Mode, Preference, Rules, Timing, Versions};
use std::{io, str};
use telling::lines::show;
use telling::piece::Letters;

// A configuration whose origin is the begin of the body.
fn of_origin(len: usize) -> Setup {
    let rules = Rules {
        host: Host::Named,
        port: 443,
        versions: Versions {
            h3: true,
            h2: true,
            h1: true,
        },
        preference: Preference::DualStackPreferV6,
        mode: Mode::NameWithHttpsRr,
        ech: true,
    };
    let timing = Timing {
        wait: false,
        multiplier: 1,
        resolution: 50000000,
        delay: 250000000,
    };
    Setup {
        rules,
        timing,
        origin: HostSpan::Named(Span { start: 0, len }),
        alts: Items { count: 0, first: 0 },
    }
}

fn show_all(rt: &impl Print, body: &[u8]) -> io::Result<()> {
    show(rt, Letters(body))?;
    if let Ok(piece) = str::from_utf8(body) {
        show(rt, piece)?;
    }
    let verdict = Verdict {
        answers: &[],
        won: None,
        calls: Course::new().calls,
        moments: None,
    };
    for len in [body.len(), body.len() / 2] {
        let setup = of_origin(len);
        draw_head(rt, Configuration { body, setup }, verdict, 172)?;
    }
    Ok(())
}

fn main(rt: HostRuntime) -> io::Result<()> {
    let mut body = [0u8; 65536];
    let n = read_full(&mut rt.stdin(), &mut body)?;
    show_all(&rt, &body[..n])
}
