// Tells a tape from standard input in words: one entry an event and one an answer, then what the race came to.
#![tactic(auto)]

use bodies::read_event;
use configuration::read_configuration;
use course::{Course, Point};
use entries::host::Said;
use entries::setup::Configuration;
use intake::only_tape;
use numbers::refusal::refusal_number;
use outcome::show_summary;
use reader::answer_at;
use replay::frames::{configuration_at, frame_at};
use replay::run::Replayed;
use replay::tape::replay;
use std::{fmt, io};
use telling::lines::show;
use telling::piece::{Since, Took};
use wording::reply::{FaultPlace, Reply};
use wording::words::Refused;

// Room for the answers to any tape of 65,536 bytes: an answer has at most 11 bytes, but for 16 queries, 16 refreshes and 32 attempts.
const ROOM: usize = 280000;

// A moment as an entry begins: in nanoseconds, and in milliseconds since the first event.
#[derive(Clone, Copy)]
struct When {
    first: u64,
    moment: u64,
}

impl fmt::Display for When {
    fn fmt<W: fmt::Write>(&self, f: &mut fmt::Formatter<W>) -> fmt::Result {
        let since = Since(Took {
            from: self.first,
            until: self.moment,
        });
        write!(f, "{} ns {since} ms", self.moment)
    }
}

// How far the clock went back from the moment of the event before; nothing where it didn't.
#[derive(Clone, Copy)]
struct Back {
    last: u64,
    moment: u64,
}

impl fmt::Display for Back {
    fn fmt<W: fmt::Write>(&self, f: &mut fmt::Formatter<W>) -> fmt::Result {
        if self.moment < self.last {
            let by = self.last - self.moment;
            return write!(f, "(the clock went back by {by} ns) ");
        }
        Ok(())
    }
}

// The moment of the first event; of a tape that has none, 0.
fn first_moment(tape: &[u8], at: usize) -> u64 {
    match frame_at(tape, at) {
        Ok((frame, _)) => frame.moment,
        Err(_) => 0,
    }
}

// What is kept from event to event: the course so far, the moments of the first event and of the last, and the place of the next answer.
#[derive(Clone, Copy)]
struct Told {
    course: Course,
    first: u64,
    last: u64,
    place: usize,
}

impl Told {
    // Tells an event and the answer to it.
    fn tell(
        &mut self,
        rt: &impl Print,
        body: &[u8],
        answers: &[u8],
        point: Point,
    ) -> io::Result<()> {
        let place = self.place;
        let Ok((answer, after)) = answer_at(answers, place) else {
            return Ok(());
        };
        let read = read_event(body);
        let moment = point.moment;
        let when = When {
            first: self.first,
            moment,
        };
        let back = Back {
            last: self.last,
            moment,
        };
        show(
            rt,
            format_args!("{when} host: {back}{}", Said { body, read }),
        )?;
        let reply = Reply {
            bytes: answers,
            answer,
        };
        show(
            rt,
            format_args!("{when} machine: {reply}{}", FaultPlace(read)),
        )?;
        self.course.follow(read, answer, place, point);
        self.last = moment;
        self.place = after;
        Ok(())
    }
}

// Tells the events from a place up to where replay ended, and then what they came to.
fn show_events(
    rt: &impl Print,
    tape: &[u8],
    answers: &[u8],
    from: usize,
    r: Replayed,
) -> io::Result<()> {
    let end = r.place;
    let first = first_moment(tape, from);
    let mut told = Told {
        course: Course::new(),
        first,
        last: first,
        place: 0,
    };
    let mut at = from;
    // No `for`: where the next event begins is known only when this one is read.
    while at < end {
        let Ok((frame, next)) = frame_at(tape, at) else {
            return Ok(());
        };
        let body = &tape[frame.body.start..next];
        let moment = frame.moment;
        told.tell(rt, body, answers, Point { place: at, moment })?;
        at = next;
    }
    show_end(rt, r)?;
    show_summary(rt, answers, &told.course, first)
}

// Why replay stopped; nothing of a tape that it went through.
fn show_end(rt: &impl Print, r: Replayed) -> io::Result<()> {
    if r.status == 0 {
        return Ok(());
    }
    let why = Refused(r.status as u64);
    show(
        rt,
        format_args!("The tape stops at byte {}: {why}", r.place),
    )
}

fn show_tape(rt: &impl Print, tape: &[u8], answers: &[u8], r: Replayed) -> io::Result<()> {
    let Ok((b, next)) = configuration_at(tape) else {
        return show_end(rt, r);
    };
    let start = b.start;
    let body = &tape[start..next];
    match read_configuration(body) {
        Err(e) => {
            let why = Refused(refusal_number(e.refusal) as u64);
            let place = e.place;
            show(
                rt,
                format_args!(
                    "The tape stops at byte 0, in its configuration: {why}; at byte {place} of the configuration's body"
                ),
            )
        }
        Ok((setup, _)) => {
            show(rt, Configuration { body, setup })?;
            show_events(rt, tape, answers, next, r)
        }
    }
}

fn main(rt: HostRuntime) -> io::Result<()> {
    let mut tape = [0u8; 65536];
    let Some(n) = only_tape(&mut rt.stdin(), &rt.stderr(), &mut tape, "story")? else {
        return Ok(());
    };
    let mut answers = [0u8; ROOM];
    let r = replay(&tape[..n], &mut answers);
    show_tape(&rt, &tape[..n], &answers, r)
}
