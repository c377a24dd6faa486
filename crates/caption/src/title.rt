// The begin of a page: its name, its title, and lines of words below that.
use chart::markup::{Escaped, Shortened, TextTag, Words};
use chart::page::{Begin, SHAPES, STYLES, TITLE};
use std::fmt::{self, Display, Write};
use std::io;

// Signs of the origin in the title, of the title's rest, and of the lines below it.
const ORIGIN: usize = 63;

const REST: usize = 71;

const SIGNS: usize = 189;

// Letters of a name that a text of 8,192 bytes surely holds: each has at most two.
pub(crate) const LETTERS: usize = 4096;

// A page's title: the origin, and the rest.
#[derive(Clone, Copy)]
pub struct Title<'a> {
    pub origin: &'a [u8],
    pub rest: &'a [u8],
}

// The letters of a name that no text may hold, as XML has them.
#[derive(Clone, Copy)]
struct LongName<'a>(&'a [u8]);

impl Display for LongName<'_> {
    fn fmt<W: Write>(&self, f: &mut fmt::Formatter<W>) -> fmt::Result {
        for b in self.0 {
            let mut bytes = [0u8; 2];
            let letter = (*b as char).encode_utf8(&mut bytes);
            write!(f, "{}", Escaped(letter.as_bytes()))?;
        }
        Ok(())
    }
}

// The page of a height up to the words on it. Its name is the whole title.
pub fn draw_begin(rt: &impl Print, t: Title<'_>, height: u64) -> io::Result<()> {
    draw_named(rt, Escaped(t.origin), t.rest, height)
}

// The same of an origin's name that no text may hold.
#[cold]
#[inline(never)]
pub(crate) fn draw_long(rt: &impl Print, name: &[u8], rest: &[u8], height: u64) -> io::Result<()> {
    draw_named(rt, LongName(name), rest, height)
}

// An origin shows itself as XML has it.
fn draw_named<D: Display + Drop>(
    rt: &impl Print,
    origin: D,
    rest: &[u8],
    height: u64,
) -> io::Result<()> {
    let begin = Begin(height);
    print!(rt; "{begin}{origin}{}", Escaped(rest))?;
    print!(rt; "{STYLES}{SHAPES}")
}

pub fn draw_title(rt: &impl Print, t: Title<'_>) -> io::Result<()> {
    let tag = TextTag {
        class: "title",
        x: 16,
        y: TITLE,
    };
    let origin = Shortened {
        text: t.origin,
        most: ORIGIN,
    };
    let rest = Shortened {
        text: t.rest,
        most: REST,
    };
    print!(rt; "{tag}{origin}{rest}</text>\n")
}

// A line of words.
pub fn draw_words(rt: &impl Print, class: &str, y: u64, text: &[u8]) -> io::Result<()> {
    let text = Shortened { text, most: SIGNS };
    rt.print(Words { class, y, text })
}
