// The scale: lines down the page, with milliseconds since the first event above them.
use chart::markup::TextTag;
use chart::page::{Grid, NUMBERS};
use chart::scale::{Scale, column_of, step_of};
use std::{fmt, io};
use telling::piece::Millis;

// A number of the scale: the time from zero on, both since the earliest moment; whole milliseconds, where the scale's steps are whole.
#[derive(Clone, Copy)]
struct Number {
    ns: u64,
    zero: u64,
    step: u64,
}

impl fmt::Display for Number {
    fn fmt<W: fmt::Write>(&self, f: &mut fmt::Formatter<W>) -> fmt::Result {
        let far = if self.ns < self.zero {
            f.write_str("-")?;
            self.zero - self.ns
        } else {
            self.ns - self.zero
        };
        if self.step < 1000000 {
            return write!(f, "{}", Millis(far));
        }
        write!(f, "{}", far / 1000000)
    }
}

// Draws the lines of a scale, down to a line of the page.
pub fn draw_ruler(rt: &impl Print, s: Scale, low: u64) -> io::Result<()> {
    let step = step_of(s.range);
    let zero = s.zero;
    let mut ns = zero % step;
    for _ in 0..8 {
        if s.range < ns {
            return Ok(());
        }
        let x = column_of(s, ns);
        let tag = TextTag {
            class: "number",
            x,
            y: NUMBERS,
        };
        print!(rt;
            "{}{tag}{}</text>\n",
            Grid { x, low },
            Number { ns, zero, step }
        )?;
        if s.range - ns < step {
            return Ok(());
        }
        ns = ns + step;
    }
    Ok(())
}
