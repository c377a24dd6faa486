// Draws a tape from standard input as one SVG on standard output: a row for each thing asked for, in the order asked, time to the right.
#![tactic(auto)]

mod gathering;
mod waits;

use caption::heading::{draw_head, draw_notes};
use caption::notice::Notice;
use caption::refused::{draw_refused, draw_stopped};
use caption::verdict::Verdict;
use chart::page::{BAR_KEY, END, MARK_KEY, height_of};
use chart::scale::scale_of;
use configuration::read_configuration;
use entries::setup::Configuration;
use gathering::gather;
use intake::only_tape;
use plot::rows::{Rows, draw_rows};
use plot::ruler::draw_ruler;
use replay::frames::configuration_at;
use replay::run::Replayed;
use replay::tape::replay;
use std::io;
use waits::draw_waits;

// Room for the answers to any tape of 65,536 bytes: an answer has at most 11 bytes, but for 16 queries, 16 refreshes and 32 attempts.
const ROOM: usize = 280000;

// Draws what a configuration, and the events from a place on, come to.
fn draw_race(
    rt: &impl Print,
    tape: &[u8],
    answers: &[u8],
    c: Configuration<'_>,
    from: usize,
    replayed: Replayed,
) -> io::Result<()> {
    let g = gather(tape, answers, from, replayed.place);
    let table = &g.course.table;
    let moments = g.moments;
    let scale = scale_of(moments);
    let verdict = Verdict {
        answers,
        won: table.winner().map(|(_, a)| a),
        calls: g.course.calls,
        moments,
    };
    let rows = Rows {
        answers,
        scale,
        last: moments.map_or(0, |m| m.last),
    };
    let height = height_of(table.count);
    draw_head(rt, c, verdict, height)?;
    draw_notes(rt, verdict, Notice { replayed, moments })?;
    print!(rt; "{BAR_KEY}{MARK_KEY}")?;
    draw_ruler(rt, scale, height - 12)?;
    draw_waits(rt, tape, answers, scale, from, replayed.place)?;
    draw_rows(rt, rows, table)?;
    rt.print(END)
}

fn draw_tape(rt: &impl Print, tape: &[u8], answers: &[u8], r: Replayed) -> io::Result<()> {
    let Ok((b, next)) = configuration_at(tape) else {
        return draw_stopped(rt, r);
    };
    let start = b.start;
    let body = &tape[start..next];
    match read_configuration(body) {
        Err(e) => draw_refused(rt, e),
        Ok((setup, _)) => { draw_race(rt, tape, answers, Configuration { body, setup }, next, r) }
    }
}

fn draw(rt: &impl Print, tape: &[u8]) -> io::Result<()> {
    let mut answers = [0u8; ROOM];
    let r = replay(tape, &mut answers);
    draw_tape(rt, tape, &answers, r)
}

fn main(rt: HostRuntime) -> io::Result<()> {
    let mut tape = [0u8; 65536];
    let Some(n) = only_tape(&mut rt.stdin(), &rt.stderr(), &mut tape, "picture")? else {
        return Ok(());
    };
    draw(&rt, &tape[..n])
}
