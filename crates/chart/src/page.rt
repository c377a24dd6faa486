// The page: its lines from the top down, its styles, its shapes and its key.
ghost use Rattle.std.specs.Prelude.{◌≤◌};

use std::fmt;

// Lines of the page above its rows.
pub const TITLE: u64 = 24;

pub const DETAIL: u64 = 41;

pub const NOTE: u64 = 56;

pub const NUMBERS: u64 = 110;

pub const BACKS: u64 = 120;

pub const WAITS: u64 = 132;

// The line of the row i. None lies outside the page.
pub fn line_of(i: usize) -> u64
    ensures { (152 ≤ result) × (result ≤ 1034) }
{
    if 63 < i {
        return 152;
    }
    i as u64 * 14 + 152
}

// The height of a page of so many rows.
pub fn height_of(rows: usize) -> u64
    ensures { (172 ≤ result) × (result ≤ 1054) }
{
    if rows == 0 {
        return 172;
    }
    line_of(rows - 1) + 20
}

// The begin of a page of a height, up to its name.
#[derive(Clone, Copy)]
pub struct Begin(pub u64);

impl fmt::Display for Begin {
    fn fmt<W: fmt::Write>(&self, f: &mut fmt::Formatter<W>) -> fmt::Result {
        let height = self.0;
        f.write_str(
            "<svg xmlns=\"http://www.w3.org/2000/svg\" xmlns:xlink=\"http://www.w3.org/1999/xlink\"",
        )?;
        write!(
            f,
            " width=\"1200\" height=\"{height}\" viewBox=\"0 0 1200 {height}\">\n<title>"
        )
    }
}

// Styles, after the page's name.
pub const STYLES: &str = "</title>\n<style>\n\
    text{font:10px 'DejaVu Sans Mono',Menlo,Consolas,monospace;fill:#111}\n\
    .title{font-size:14px;font-weight:bold}\n\
    .alarm{font-weight:bold;fill:#a00000}\n\
    .number{text-anchor:middle}\n\
    .took{text-anchor:end}\n\
    path{fill:none;stroke-width:5}\n\
    .query{stroke:#4477aa}\n\
    .refresh{stroke:#4477aa;stroke-dasharray:3 2}\n\
    .attempt{stroke:#e8a33d;stroke-width:9}\n\
    .retry{stroke:#e8a33d;stroke-width:9;stroke-dasharray:7 2}\n\
    .backward{stroke:#000;stroke-width:1.5;stroke-dasharray:2 3}\n\
    .timer{stroke:#999;stroke-width:4}\n\
    .grid{stroke:#ddd;stroke-width:1}\n\
    .won{fill:#e9f6ea;stroke:#1a7f37;stroke-width:1}\n\
    #begin{stroke:#000;stroke-width:1}\n\
    #answered{fill:#123a63}\n\
    #succeeded{fill:#1a7f37;stroke:#000;stroke-width:1}\n\
    #failed{stroke:#a00000;stroke-width:2.5}\n\
    #cancelled{fill:#fff;stroke:#000;stroke-width:1.5}\n\
    #open{stroke:#000;stroke-width:2}\n\
    #back{fill:#a00000}\n\
    #star{fill:#1a7f37}\n\
    </style>\n";

// The marks, each of a shape of its own, so that they are told apart without colour; and a white page below them.
pub const SHAPES: &str = "<defs>\n\
    <path id=\"begin\" d=\"M0-5v10\"/>\n\
    <path id=\"answered\" d=\"M-4 0a4 4 0 1 0 8 0a4 4 0 1 0-8 0z\"/>\n\
    <path id=\"succeeded\" d=\"M-6 5l6-10l6 10z\"/>\n\
    <path id=\"failed\" d=\"M-4-4l8 8m0-8l-8 8\"/>\n\
    <path id=\"cancelled\" d=\"M-4-4h8v8h-8z\"/>\n\
    <path id=\"open\" d=\"M-3-5l6 5l-6 5\"/>\n\
    <path id=\"back\" d=\"M0 0l7-4v8z\"/>\n\
    <path id=\"star\" d=\"M0-6l1.5 4h4l-3.2 2.6l1.2 4l-3.5-2.4l-3.5 2.4l1.2-4l-3.2-2.6h4z\"/>\n\
    </defs>\n\
    <rect x=\"0\" y=\"0\" width=\"1200\" height=\"100%\" fill=\"#fff\"/>\n";

// What bars are, and the names of the columns.
pub const BAR_KEY: &str = "<text x=\"16\" y=\"74\">Bars:</text>\n\
    <path class=\"query\" d=\"M56 70H84\"/><text x=\"90\" y=\"74\">query</text>\n\
    <path class=\"refresh\" d=\"M136 70H164\"/><text x=\"170\" y=\"74\">refresh</text>\n\
    <path class=\"attempt\" d=\"M228 70H256\"/><text x=\"262\" y=\"74\">attempt</text>\n\
    <path class=\"retry\" d=\"M320 70H348\"/><text x=\"354\" y=\"74\">ECH retry</text>\n\
    <path class=\"backward\" d=\"M424 70H452\"/><text x=\"458\" y=\"74\">ended before it began: the clock went back</text>\n\
    <path class=\"timer\" d=\"M730 70H758\"/><text x=\"764\" y=\"74\">timer, until it ran out or the next call</text>\n\
    <text x=\"16\" y=\"110\">ms since the first event</text>\n\
    <text x=\"16\" y=\"135\">calls and timers</text>\n\
    <text class=\"took\" x=\"1192\" y=\"110\">took, ms</text>\n";

// What marks are.
pub const MARK_KEY: &str = "<text x=\"16\" y=\"90\">Ends:</text>\n\
    <use xlink:href=\"#answered\" x=\"70\" y=\"86\"/><text x=\"80\" y=\"90\">answered</text>\n\
    <use xlink:href=\"#succeeded\" x=\"150\" y=\"86\"/><text x=\"160\" y=\"90\">succeeded</text>\n\
    <use xlink:href=\"#failed\" x=\"236\" y=\"86\"/><text x=\"246\" y=\"90\">failed</text>\n\
    <use xlink:href=\"#cancelled\" x=\"304\" y=\"86\"/><text x=\"314\" y=\"90\">cancelled</text>\n\
    <use xlink:href=\"#open\" x=\"390\" y=\"86\"/><text x=\"400\" y=\"90\">still open at the tape's end</text>\n\
    <use xlink:href=\"#star\" x=\"592\" y=\"86\"/><text x=\"604\" y=\"90\">winner</text>\n\
    <use xlink:href=\"#begin\" x=\"662\" y=\"86\"/><text x=\"670\" y=\"90\">asked for, or a call</text>\n\
    <use xlink:href=\"#back\" x=\"812\" y=\"86\"/><text x=\"825\" y=\"90\">the clock went back to here</text>\n";

// A frame around the row of the winner, and a star before it.
#[derive(Clone, Copy)]
pub struct Crown(pub u64);

impl fmt::Display for Crown {
    fn fmt<W: fmt::Write>(&self, f: &mut fmt::Formatter<W>) -> fmt::Result {
        let y = self.0;
        write!(f, "<path class=\"won\" d=\"M3 {y}m0-7h1194v14h-1194z\"/>\n")?;
        write!(f, "<use xlink:href=\"#star\" x=\"9\" y=\"{y}\"/>\n")
    }
}

// A line of the scale, down to the end of the rows.
#[derive(Clone, Copy)]
pub struct Grid {
    pub x: u64,
    pub low: u64,
}

impl fmt::Display for Grid {
    fn fmt<W: fmt::Write>(&self, f: &mut fmt::Formatter<W>) -> fmt::Result {
        let x = self.x;
        let low = self.low;
        write!(f, "<path class=\"grid\" d=\"M{x} 114V{low}\"/>\n")
    }
}

pub const END: &str = "</svg>\n";
