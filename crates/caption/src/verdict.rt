// What a race came to, in words: who won and when, or what was said last.
use chart::moments::Moments;
use course::{Asked, Calls};
use reader::{Answer, answer_at};
use std::fmt;
use telling::piece::Took;
use wording::reply::ReplyAt;

// The winner, the calls and the moments of a tape, and the answers to it.
#[derive(Clone, Copy)]
pub struct Verdict<'a> {
    pub answers: &'a [u8],
    pub won: Option<Asked>,
    pub calls: Calls,
    pub moments: Option<Moments>,
}

// What the race came to, and after how long.
impl fmt::Display for Verdict<'_> {
    fn fmt<W: fmt::Write>(&self, f: &mut fmt::Formatter<W>) -> fmt::Result {
        let Some(m) = self.moments else {
            return f.write_str(": no event");
        };
        let from = m.first;
        if let Some(a) = self.won {
            let until = a.until.moment;
            let took = Took { from, until };
            return write!(f, ": won after {took} ms by attempt {}", a.id);
        }
        let Some(last) = self.calls.last else {
            return f.write_str(": no call");
        };
        let until = last.at.moment;
        let took = Took { from, until };
        match answer_at(self.answers, last.place) {
            Ok((Answer::Failed(_), _)) => write!(f, ": failed after {took} ms"),
            _ => write!(f, ": not decided after {took} ms"),
        }
    }
}

// The winner, or the answer to the last call.
#[derive(Clone, Copy)]
pub struct Detail<'a>(pub Verdict<'a>);

impl fmt::Display for Detail<'_> {
    fn fmt<W: fmt::Write>(&self, f: &mut fmt::Formatter<W>) -> fmt::Result {
        let answers = self.0.answers;
        if let Some(a) = self.0.won {
            let place = a.place;
            return write!(f, "Won by {}", ReplyAt { answers, place });
        }
        let Some(last) = self.0.calls.last else {
            return f.write_str("The machine was never called.");
        };
        let place = last.place;
        write!(f, "Answer to the last call: {}", ReplyAt { answers, place })
    }
}
