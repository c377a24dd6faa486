// The head of the page of a tape whose configuration is sound.
use super::notice::Notice;
use super::title::{LETTERS, Title, draw_begin, draw_long, draw_title, draw_words};
use super::verdict::{Detail, Verdict};
use chart::page::{DETAIL, NOTE};
use configuration::HostSpan;
use entries::setup::{Configuration, Origin};
use std::fmt::Write;
use std::io;
use telling::piece::part;
use telling::text::Text;

// The head of the page: the origin and what the race came to.
pub fn draw_head(
    rt: &impl Print,
    c: Configuration<'_>,
    v: Verdict<'_>,
    height: u64,
) -> io::Result<()> {
    let said = Origin {
        body: c.body,
        host: c.setup.origin,
    };
    let port = c.setup.rules.port;
    let mut origin = Text::new();
    write!(origin, "{said}")?;
    let mut rest = Text::new();
    write!(rest, ", port {port}{v}")?;
    let title = Title {
        origin: origin.as_bytes(),
        rest: rest.as_bytes(),
    };
    match c.setup.origin {
        // A text may not hold it, and the page's name has it whole all the same.
        HostSpan::Named(b) if LETTERS < b.len => {
            draw_long(rt, part(c.body, b), title.rest, height)?
        }
        _ => draw_begin(rt, title, height)?,
    }
    draw_title(rt, title)
}

// What stands below the title: the winner or the last answer, and what a reader is to be warned of.
pub fn draw_notes(rt: &impl Print, v: Verdict<'_>, n: Notice) -> io::Result<()> {
    let mut detail = Text::new();
    write!(detail, "{}", Detail(v))?;
    draw_words(rt, "detail", DETAIL, detail.as_bytes())?;
    let mut notice = Text::new();
    write!(notice, "{n}")?;
    if notice.as_bytes().is_empty() {
        let none = "The tape was replayed to its end; the clock never went back.";
        return draw_words(rt, "note", NOTE, none.as_bytes());
    }
    draw_words(rt, "alarm", NOTE, notice.as_bytes())
}
