// The page of a tape that has no sound configuration.
use super::notice::Stop;
use super::title::{Title, draw_begin, draw_title, draw_words};
use chart::page::{DETAIL, END};
use numbers::refusal::refusal_number;
use parts::reading::Fault;
use replay::run::Replayed;
use std::fmt::{Display, Write};
use std::io;
use telling::text::Text;
use wording::words::Refused;

fn draw_only<D: Display + Drop>(rt: &impl Print, why: D) -> io::Result<()> {
    let mut said = Text::new();
    write!(said, "{why}")?;
    let origin = b"No race";
    let name = Title { origin, rest: b"" };
    let title = Title {
        origin,
        rest: b": the tape has no sound configuration",
    };
    draw_begin(rt, name, 72)?;
    draw_title(rt, title)?;
    draw_words(rt, "alarm", DETAIL, said.as_bytes())?;
    rt.print(END)
}

// The page of a tape whose configuration is refused, at a place of its body.
pub fn draw_refused(rt: &impl Print, e: Fault) -> io::Result<()> {
    let why = Refused(refusal_number(e.refusal) as u64);
    let place = e.place;
    draw_only(
        rt,
        format_args!(
            "The tape stops at byte 0, in its configuration: {why}; at byte {place} of the configuration's body"
        ),
    )
}

// The page of a tape that stops before its configuration's body.
pub fn draw_stopped(rt: &impl Print, r: Replayed) -> io::Result<()> {
    draw_only(rt, Stop(r))
}
