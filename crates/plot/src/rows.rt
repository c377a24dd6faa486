// A row for each thing that was asked for: its label, a bar from its asking to its end, a mark there, and the time between.
use chart::markup::{Bar, Mark, Shortened, TextTag, Words};
use chart::page::{Crown, line_of};
use chart::scale::{Scale, column};
use course::{Asked, Fate, Sort, Table};
use std::fmt::Write;
use std::{fmt, io};
use telling::piece::Took;
use telling::text::Text;
use wording::reply::ReplyAt;

// Signs of a label.
const LABEL: usize = 59;

// The style of a bar that goes forward in time.
fn style(s: Sort) -> &'static str {
    match s {
        Sort::Query => "query",
        Sort::Refresh => "refresh",
        Sort::Attempt => "attempt",
        Sort::Retry => "retry",
    }
}

// The shape of the mark of how something ended.
fn shape(f: Fate) -> &'static str {
    match f {
        Fate::Open => "open",
        Fate::Answered => "answered",
        Fate::Failed => "failed",
        Fate::Succeeded => "succeeded",
        Fate::Cancelled => "cancelled",
    }
}

// The bar of a thing that was asked for, and the marks at its ends, on a tape with this last moment.
#[derive(Clone, Copy)]
struct Drawn<'a> {
    asked: &'a Asked,
    scale: Scale,
    last: u64,
    y: u64,
}

impl fmt::Display for Drawn<'_> {
    fn fmt<W: fmt::Write>(&self, f: &mut fmt::Formatter<W>) -> fmt::Result {
        let a = self.asked;
        let y = self.y;
        let end = if a.is_open() {
            self.last
        } else {
            a.until.moment
        };
        let x = column(self.scale, a.from.moment);
        let until = column(self.scale, end);
        let bar = Bar {
            class: if end < a.from.moment {
                "backward"
            } else {
                style(a.sort)
            },
            from: x,
            until,
            y,
        };
        write!(f, "{bar}")?;
        // Beneath a mark the stroke where a bar begins would change the mark's shape.
        if x != until {
            let asking = Mark {
                shape: "begin",
                x,
                y,
            };
            write!(f, "{asking}")?;
        }
        let ending = Mark {
            shape: shape(a.fate),
            x: until,
            y,
        };
        write!(f, "{ending}")
    }
}

// How long something took, at a line of the page.
#[derive(Clone, Copy)]
struct Time<'a> {
    asked: &'a Asked,
    y: u64,
}

impl fmt::Display for Time<'_> {
    fn fmt<W: fmt::Write>(&self, f: &mut fmt::Formatter<W>) -> fmt::Result {
        let a = self.asked;
        let tag = TextTag {
            class: "took",
            x: 1192,
            y: self.y,
        };
        if a.is_open() {
            return write!(f, "{tag}open</text>\n");
        }
        let took = Took {
            from: a.from.moment,
            until: a.until.moment,
        };
        write!(f, "{tag}{took}</text>\n")
    }
}

// What all rows of a picture have: the answers, the scale, and the tape's last moment.
#[derive(Clone, Copy)]
pub struct Rows<'a> {
    pub answers: &'a [u8],
    pub scale: Scale,
    pub last: u64,
}

impl Rows<'_> {
    fn draw(&self, rt: &impl Print, i: usize, asked: &Asked, won: bool) -> io::Result<()> {
        let y = line_of(i);
        if won {
            rt.print(Crown(y))?;
        }
        let said = ReplyAt {
            answers: self.answers,
            place: asked.place,
        };
        let mut label = Text::new();
        write!(label, "{said}")?;
        let words = Words {
            class: "label",
            y: y + 3,
            text: Shortened {
                text: label.as_bytes(),
                most: LABEL,
            },
        };
        rt.print(words)?;
        let drawn = Drawn {
            asked,
            scale: self.scale,
            last: self.last,
            y,
        };
        print!(rt; "{drawn}{}", Time { asked, y: y + 3 })
    }
}

// Draws a row for each thing asked for.
pub fn draw_rows(rt: &impl Print, rows: Rows<'_>, t: &Table) -> io::Result<()> {
    if t.count == 0 {
        return rt.print("<text class=\"label\" x=\"16\" y=\"155\">nothing was asked for</text>\n");
    }
    let winner = t.winner().map(|(w, _)| w);
    for (i, asked) in t.list.iter().take(t.count).enumerate() {
        rows.draw(rt, i, asked, winner == Some(i))?;
    }
    Ok(())
}
