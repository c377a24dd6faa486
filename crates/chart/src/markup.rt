// Pieces of SVG: text, bars and marks. Nothing but printable ASCII is written, whatever bytes come.
use std::fmt;

// A text as XML has it.
#[derive(Clone, Copy)]
pub struct Escaped<'a>(pub &'a [u8]);

impl fmt::Display for Escaped<'_> {
    fn fmt<W: fmt::Write>(&self, f: &mut fmt::Formatter<W>) -> fmt::Result {
        for b in self.0 {
            match *b {
                b'"' => f.write_str("&quot;")?,
                b'&' => f.write_str("&amp;")?,
                b'<' => f.write_str("&lt;")?,
                b'>' => f.write_str("&gt;")?,
                32..=126 => f.write_char(*b as char)?,
                _ => f.write_str("?")?,
            }
        }
        Ok(())
    }
}

// A text that is cut after so many bytes; an ellipsis stands for the others.
#[derive(Clone, Copy)]
pub struct Shortened<'a> {
    pub text: &'a [u8],
    pub most: usize,
}

impl fmt::Display for Shortened<'_> {
    fn fmt<W: fmt::Write>(&self, f: &mut fmt::Formatter<W>) -> fmt::Result {
        match self.text.get(..self.most) {
            Some(begin) if self.most < self.text.len() => write!(f, "{}&#8230;", Escaped(begin)),
            _ => write!(f, "{}", Escaped(self.text)),
        }
    }
}

// The begin of a text of a class, up to its words.
#[derive(Clone, Copy)]
pub struct TextTag<'a> {
    pub class: &'a str,
    pub x: u64,
    pub y: u64,
}

impl fmt::Display for TextTag<'_> {
    fn fmt<W: fmt::Write>(&self, f: &mut fmt::Formatter<W>) -> fmt::Result {
        let class = self.class;
        let x = self.x;
        let y = self.y;
        write!(f, "<text class=\"{class}\" x=\"{x}\" y=\"{y}\">")
    }
}

// A text on a line of the page, from the margin on, cut after so many bytes; a viewer shows the whole of one that is cut under the pointer.
#[derive(Clone, Copy)]
pub struct Words<'a> {
    pub class: &'a str,
    pub y: u64,
    pub text: Shortened<'a>,
}

impl fmt::Display for Words<'_> {
    fn fmt<W: fmt::Write>(&self, f: &mut fmt::Formatter<W>) -> fmt::Result {
        let text = self.text;
        let tag = TextTag {
            class: self.class,
            x: 16,
            y: self.y,
        };
        write!(f, "{tag}")?;
        if text.most < text.text.len() {
            write!(f, "<title>{}</title>", Escaped(text.text))?;
        }
        write!(f, "{text}</text>\n")
    }
}

// A bar of a class from one column to another.
#[derive(Clone, Copy)]
pub struct Bar<'a> {
    pub class: &'a str,
    pub from: u64,
    pub until: u64,
    pub y: u64,
}

impl fmt::Display for Bar<'_> {
    fn fmt<W: fmt::Write>(&self, f: &mut fmt::Formatter<W>) -> fmt::Result {
        let class = self.class;
        let from = self.from;
        let until = self.until;
        let y = self.y;
        write!(f, "<path class=\"{class}\" d=\"M{from} {y}H{until}\"/>\n")
    }
}

// A mark, by the name of its shape (page::SHAPES).
#[derive(Clone, Copy)]
pub struct Mark<'a> {
    pub shape: &'a str,
    pub x: u64,
    pub y: u64,
}

impl fmt::Display for Mark<'_> {
    fn fmt<W: fmt::Write>(&self, f: &mut fmt::Formatter<W>) -> fmt::Result {
        let shape = self.shape;
        let x = self.x;
        let y = self.y;
        write!(f, "<use xlink:href=\"#{shape}\" x=\"{x}\" y=\"{y}\"/>\n")
    }
}
