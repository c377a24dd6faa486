// Lines of at most 100 columns. A longer text continues indented by four; a line that is broken inside a word ends with a backslash.
ghost use Rattle.std.specs.Prelude.{◌≤◌, ◌<◌, ◌+◌, length, IfOk};

use std::fmt::{self, Display, Write};
use std::io;
use std::marker::Model;

const COLUMNS: usize = 100;

// Room for the longest entry of a story, which has less than 3,000 bytes.
const HELD: usize = 4096;

// The last blank after from and up to most, or from where there is none.
fn blank(s: &[u8], from: usize, most: usize) -> usize
    requires { (from ≤ most) × (most < length s.now) }
    ensures { (from ≤ result) × (result ≤ most) }
{
    for e in (from + 1..=most).rev() {
        if s[e] == b' ' {
            return e;
        }
    }
    from
}

// Writes all lines of a text but the last, and gives the place where that begins. The first may continue a line that is written already.
fn broken(rt: &impl Print, s: &[u8], continued: bool) -> io::Result<usize>
    ensures { IfOk result (λ at. (at ≤ length s.now) × (length s.now ≤ at + 100)) }
{
    let mut at: usize = 0;
    let mut width: usize = if continued { 96 } else { COLUMNS };
    // No `for`: how far a line goes is known only when its end is found.
    while width < s.len() - at {
        let most = at + width;
        let end = blank(s, at, most);
        if end == at {
            let stop = most - 1;
            rt.write_all(&s[at..stop])?;
            rt.write_all(b"\\\n    ")?;
            at = stop;
        } else {
            rt.write_all(&s[at..end])?;
            rt.write_all(b"\n    ")?;
            at = end + 1;
        }
        width = 96;
    }
    Ok(at)
}

// An entry while it comes: what no line has yet, whether that continues a line, and why no more can be written.
#[derive(Drop)]
struct Lines<'a, P> {
    rt: &'a P,
    held: [u8; HELD],
    len: usize,
    continued: bool,
    failed: Option<io::Error>,
}

impl<'a, P> Model for Lines<'a, P> {
    ghost use Rattle.std.specs.Prelude.{ℕ, ◌≤◌, List, take};

    ghost Value = { List ℕ };

    ghost view = { λ l. take l.len l.held };

    ghost invariant = { λ l. l.len ≤ 4096 };
}

impl<P: Print> Lines<'_, P> {
    // Writes the lines that are whole, so that there is room again; nothing after a line that couldn't be written.
    fn spill(&mut self)
        ensures { length self.new ≤ 100 }
    {
        if self.failed.is_none() {
            match broken(self.rt, &self.held[..self.len], self.continued) {
                Ok(at) => {
                    self.held.copy_within(at..self.len, 0);
                    self.len -= at;
                    self.continued = true;
                    return;
                }
                Err(e) => self.failed = Some(e),
            }
        }
        self.len = 0;
    }

    // A piece that there is no room for.
    #[cold]
    #[inline(never)]
    fn write_long(&mut self, s: &[u8]) {
        for b in s {
            if self.len == HELD {
                self.spill();
            }
            self.held[self.len] = *b;
            self.len += 1;
        }
    }

    // Writes what is left, unless a line couldn't be written or the entry couldn't be shown.
    fn end(&mut self, shown: fmt::Result) -> io::Result<()> {
        if let Some(e) = self.failed.take() {
            return Err(e);
        }
        shown?;
        let rest = &self.held[..self.len];
        let at = broken(self.rt, rest, self.continued)?;
        self.rt.write_all(&rest[at..])?;
        self.rt.write_all(b"\n")
    }
}

impl<P: Print> fmt::Write for Lines<'_, P> {
    fn write_str(&mut self, s: &str) -> fmt::Result {
        let len = self.len;
        if s.len() <= HELD - len {
            let end = len + s.len();
            self.held[len..end].copy_from_slice(s.as_bytes());
            self.len = end;
        } else {
            self.write_long(s.as_bytes());
        }
        Ok(())
    }
}

// Writes an entry in lines, however long it is.
pub fn show<D: Display + Drop>(rt: &impl Print, entry: D) -> io::Result<()> {
    let mut lines = Lines {
        rt,
        held: [0; HELD],
        len: 0,
        continued: false,
        failed: None,
    };
    let shown = write!(lines, "{entry}");
    lines.end(shown)
}
