// Pieces of text that a format shows: times, names and ECH bytes.
use numbers::field::Span;
use std::fmt;

// Nanoseconds as milliseconds with three decimals; what is below a microsecond is cut off.
#[derive(Clone, Copy)]
pub struct Millis(pub u64);

impl fmt::Display for Millis {
    fn fmt<W: fmt::Write>(&self, f: &mut fmt::Formatter<W>) -> fmt::Result {
        let ns = self.0;
        write!(f, "{}.{:03}", ns / 1000000, ns / 1000 % 1000)
    }
}

// Milliseconds from one moment to another; a clock that went back gives a minus sign.
#[derive(Clone, Copy)]
pub struct Took {
    pub from: u64,
    pub until: u64,
}

impl fmt::Display for Took {
    fn fmt<W: fmt::Write>(&self, f: &mut fmt::Formatter<W>) -> fmt::Result {
        if self.until < self.from {
            return write!(f, "-{}", Millis(self.from - self.until));
        }
        write!(f, "{}", Millis(self.until - self.from))
    }
}

// The same with a sign in either case.
#[derive(Clone, Copy)]
pub struct Since(pub Took);

impl fmt::Display for Since {
    fn fmt<W: fmt::Write>(&self, f: &mut fmt::Formatter<W>) -> fmt::Result {
        let took = self.0;
        if took.from <= took.until {
            f.write_str("+")?;
        }
        write!(f, "{took}")
    }
}

// The bytes of a name, each a letter of its own: the name rule has ASCII alone.
#[derive(Clone, Copy)]
pub struct Letters<'a>(pub &'a [u8]);

impl fmt::Display for Letters<'_> {
    fn fmt<W: fmt::Write>(&self, f: &mut fmt::Formatter<W>) -> fmt::Result {
        for b in self.0 {
            f.write_char(*b as char)?;
        }
        Ok(())
    }
}

// ECH bytes: how many, and the first of them, at most 8, in hexadecimal.
#[derive(Clone, Copy)]
pub struct Sealed<'a>(pub &'a [u8]);

impl fmt::Display for Sealed<'_> {
    fn fmt<W: fmt::Write>(&self, f: &mut fmt::Formatter<W>) -> fmt::Result {
        let n = self.0.len();
        write!(f, "ECH of length {n}")?;
        if n == 0 {
            return Ok(());
        }
        f.write_str(" (")?;
        for b in self.0.iter().take(8) {
            write!(f, "{b:02x}")?;
        }
        f.write_str(if 8 < n { "..)" } else { ")" })
    }
}

// The bytes of a span; none where it reaches past the end.
pub fn part(s: &[u8], b: Span) -> &[u8] {
    let rest = s.get(b.start..).unwrap_or(&[]);
    rest.get(..b.len).unwrap_or(&[])
}
