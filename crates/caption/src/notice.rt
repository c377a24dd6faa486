// What a reader is to be warned of.
use chart::moments::Moments;
use replay::run::Replayed;
use std::fmt;
use telling::piece::Millis;
use wording::words::Refused;

// Where the tape stops, and why; nothing of one that is replayed to its end.
#[derive(Clone, Copy)]
pub struct Stop(pub Replayed);

impl fmt::Display for Stop {
    fn fmt<W: fmt::Write>(&self, f: &mut fmt::Formatter<W>) -> fmt::Result {
        let r = self.0;
        if r.status == 0 {
            return Ok(());
        }
        let why = Refused(u64::from(r.status));
        write!(f, "The tape stops at byte {}: {why}.", r.place)
    }
}

// How often the clock went back, and how far; nothing of one that never did.
#[derive(Clone, Copy)]
struct Backs(Moments);

impl fmt::Display for Backs {
    fn fmt<W: fmt::Write>(&self, f: &mut fmt::Formatter<W>) -> fmt::Result {
        let by = Millis(self.0.farthest);
        match self.0.backs {
            0 => Ok(()),
            1 => write!(f, "The clock went back once, by {by} ms."),
            n => write!(f, "The clock went back {n} times, by up to {by} ms."),
        }
    }
}

// Both, as sentences.
#[derive(Clone, Copy)]
pub struct Notice {
    pub replayed: Replayed,
    pub moments: Option<Moments>,
}

impl fmt::Display for Notice {
    fn fmt<W: fmt::Write>(&self, f: &mut fmt::Formatter<W>) -> fmt::Result {
        write!(f, "{}", Stop(self.replayed))?;
        let Some(m) = self.moments else {
            return Ok(());
        };
        if self.replayed.status != 0 && m.backs != 0 {
            f.write_str(" ")?;
        }
        write!(f, "{}", Backs(m))
    }
}
