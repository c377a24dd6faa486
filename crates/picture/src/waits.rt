// The row of calls and timers: a stroke for each call, a bar for each timer, and a mark where the clock went back.
use chart::markup::{Bar, Mark};
use chart::page::{BACKS, WAITS};
use chart::scale::{Scale, column};
use reader::{Answer, answer_at};
use replay::frames::frame_at;
use std::io;

// The last call's moment, its column, and the timer that it was given, 0 for none (it is added); before the first call all are 0.
#[derive(Clone, Copy, Default)]
struct Wait {
    since: u64,
    column: u64,
    timer: u64,
}

impl Wait {
    // When it ends: its timer runs out, or an earlier call comes. If the clock went back, it took no time.
    fn end(&self, next: u64) -> u64 {
        if next < self.since {
            return self.since;
        }
        if next - self.since < self.timer {
            return next;
        }
        self.since.wrapping_add(self.timer)
    }
}

// The row that is drawn: the wait, and the last event's moment.
#[derive(Clone, Copy)]
struct Row {
    scale: Scale,
    wait: Wait,
    last: Option<u64>,
}

impl Row {
    fn draw_timer(&self, rt: &impl Print, next: u64) -> io::Result<()> {
        let from = column(self.scale, self.wait.since);
        let until = column(self.scale, self.wait.end(next));
        if from < until {
            let class = "timer";
            let y = WAITS;
            rt.print(Bar {
                class,
                from,
                until,
                y,
            })?;
        }
        Ok(())
    }

    // Draws an event and the answer to it.
    fn draw(&mut self, rt: &impl Print, answer: Answer, moment: u64) -> io::Result<()> {
        let x = column(self.scale, moment);
        if let Some(last) = self.last {
            if moment < last {
                let shape = "back";
                let y = BACKS;
                rt.print(Mark { shape, x, y })?;
            }
        }
        self.last = Some(moment);
        match answer {
            Answer::Taken(_) => Ok(()),
            Answer::Timer(ns) => self.call(rt, moment, x, ns),
            _ => self.call(rt, moment, x, 0),
        }
    }

    // Draws the wait before a call, and a stroke for the call at a column that isn't that of the call before.
    fn call(&mut self, rt: &impl Print, moment: u64, x: u64, timer: u64) -> io::Result<()> {
        self.draw_timer(rt, moment)?;
        if self.wait.column != x {
            let shape = "begin";
            let y = WAITS;
            rt.print(Mark { shape, x, y })?;
        }
        self.wait = Wait {
            since: moment,
            column: x,
            timer,
        };
        Ok(())
    }
}

// Draws the events from a place up to an end.
pub fn draw_waits(
    rt: &impl Print,
    tape: &[u8],
    answers: &[u8],
    scale: Scale,
    from: usize,
    end: usize,
) -> io::Result<()> {
    let mut row = Row {
        scale,
        wait: Wait::default(),
        last: None,
    };
    let mut place: usize = 0;
    let mut at = from;
    // No `for`: where the next event begins is known only when this one is read.
    while at < end {
        let Ok((frame, next)) = frame_at(tape, at) else {
            return Ok(());
        };
        let Ok((answer, after)) = answer_at(answers, place) else {
            return Ok(());
        };
        row.draw(rt, answer, frame.moment)?;
        place = after;
        at = next;
    }
    row.draw_timer(rt, row.last.unwrap_or(0))
}
