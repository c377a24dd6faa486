// What a race came to.
#![tactic(auto)]

use course::{Asked, Called, Calls, Course, Fate, Gap, Table, Tally};
use reader::{Answer, answer_at};
use std::{fmt, io};
use telling::lines::show;
use telling::piece::{Millis, Took};
use wording::reply::{ReplyAt, failed};

// How long something was open.
fn took(a: &Asked) -> Took {
    Took {
        from: a.from.moment,
        until: a.until.moment,
    }
}

fn became(f: Fate) -> &'static str {
    match f {
        Fate::Open => "unanswered",
        Fate::Answered => "answered",
        Fate::Failed => "failed",
        Fate::Succeeded => "succeeded",
        Fate::Cancelled => "cancelled",
    }
}

// Something that was asked for, what became of it, and after how long.
#[derive(Clone, Copy)]
struct Ended<'a> {
    answers: &'a [u8],
    asked: &'a Asked,
}

impl fmt::Display for Ended<'_> {
    fn fmt<W: fmt::Write>(&self, f: &mut fmt::Formatter<W>) -> fmt::Result {
        let a = self.asked;
        let said = ReplyAt {
            answers: self.answers,
            place: a.place,
        };
        write!(f, "{said}; {}", became(a.fate))?;
        if !a.is_open() {
            write!(f, " after {} ms", took(a))?;
        }
        Ok(())
    }
}

// All that was asked for.
fn show_table(rt: &impl Print, answers: &[u8], t: &Table) -> io::Result<()> {
    for asked in t.list.iter().take(t.count) {
        show(rt, format_args!("  {}", Ended { answers, asked }))?;
    }
    Ok(())
}

// What was open after the event at a place, each on a line of its own.
fn show_unanswered(rt: &impl Print, answers: &[u8], t: &Table, place: usize) -> io::Result<()> {
    let mut any = false;
    for a in t.list.iter().take(t.count) {
        if a.was_open(place) {
            let place = a.place;
            show(rt, format_args!("  {}", ReplyAt { answers, place }))?;
            any = true;
        }
    }
    if !any {
        show(rt, "  nothing")?;
    }
    Ok(())
}

fn show_won(rt: &impl Print, answers: &[u8], a: &Asked, first: u64) -> io::Result<()> {
    let after = Took {
        from: first,
        until: a.until.moment,
    };
    let place = a.place;
    let said = ReplyAt { answers, place };
    show(
        rt,
        format_args!("Won after {after} ms by {said}; it took {} ms", took(a)),
    )
}

// The moment of the latest call and what it was answered, if that was Failed.
fn failure(answers: &[u8], c: &Calls) -> Option<(u64, &'static str)> {
    let last = c.last?;
    match answer_at(answers, last.place) {
        Ok((Answer::Failed(reason), _)) => Some((last.at.moment, failed(reason))),
        _ => None,
    }
}

fn show_outcome(rt: &impl Print, answers: &[u8], c: &Course, first: u64) -> io::Result<()> {
    if let Some((_, a)) = c.table.winner() {
        return show_won(rt, answers, &a, first);
    }
    if let Some((moment, why)) = failure(answers, &c.calls) {
        let after = Took {
            from: first,
            until: moment,
        };
        show(
            rt,
            format_args!("The race {why}, said after {after} ms. Asked for:"),
        )?;
        return show_table(rt, answers, &c.table);
    }
    show(rt, "Not decided. Unanswered at the end:")?;
    show_unanswered(rt, answers, &c.table, usize::MAX)
}

#[derive(Clone, Copy)]
struct Counts(Tally);

impl fmt::Display for Counts {
    fn fmt<W: fmt::Write>(&self, f: &mut fmt::Formatter<W>) -> fmt::Result {
        let y = self.0;
        write!(
            f,
            "Counts: queries {}, refreshes {}",
            y.queries, y.refreshes
        )?;
        write!(
            f,
            ", attempts {}, of them ECH retries {}",
            y.attempts, y.retries
        )?;
        write!(f, ", cancels {}, refused inputs {}", y.cancels, y.refused)?;
        write!(f, ", calls {}", y.calls)
    }
}

// The longest gap between two calls, and what the machine was waiting for then.
fn show_gap(rt: &impl Print, answers: &[u8], c: &Course) -> io::Result<()> {
    let Some(Gap { before, ns }) = c.calls.longest else {
        return show(rt, "No time passed between two calls.");
    };
    let Called { at, place } = before;
    let said = ReplyAt { answers, place };
    let from = at.moment;
    let long = Millis(ns);
    show(
        rt,
        format_args!(
            "Longest gap between calls: {ns} ns ({long} ms), from {from} ns on. Last answer before it: {said}. Unanswered then:"
        ),
    )?;
    show_unanswered(rt, answers, &c.table, at.place)
}

// What the tape came to, from its first event's moment on.
pub fn show_summary(rt: &impl Print, answers: &[u8], c: &Course, first: u64) -> io::Result<()> {
    show(rt, "")?;
    show(rt, "Summary")?;
    show_outcome(rt, answers, c, first)?;
    show(rt, Counts(c.tally))?;
    show_gap(rt, answers, c)
}
