// Time to the right: which column a moment has, and how far apart the numbers of the scale stand.
ghost use Rattle.std.specs.Prelude.{◌≤◌};

use super::moments::Moments;

// Where the chart begins and how wide it is, in pixels.
const LEFT: u64 = 390;

const WIDE: u64 = 680;

// Times in nanoseconds from the earliest moment of a tape: those of its first event and of its latest moment.
#[derive(Clone, Copy)]
pub struct Scale {
    pub low: u64,
    pub zero: u64,
    pub range: u64,
}

// A picture shows a microsecond at least, since no number has more decimals.
const LEAST: u64 = 1000;

// The scale of these moments; a tape without an event has the least.
pub fn scale_of(moments: Option<Moments>) -> Scale {
    match moments {
        Some(m) => Scale {
            low: m.low,
            zero: m.first.saturating_sub(m.low),
            range: LEAST.max(m.high.saturating_sub(m.low)),
        },
        None => Scale {
            low: 0,
            zero: 0,
            range: LEAST,
        },
    }
}

fn within(pixels: u64) -> u64
    ensures { result ≤ 680 }
{
    if WIDE < pixels {
        return WIDE;
    }
    pixels
}

// The column of a time since the earliest moment; a long one is divided first, so that nothing wraps.
pub fn column_of(s: Scale, ns: u64) -> u64
    ensures { (390 ≤ result) × (result ≤ 1070) }
{
    if ns == 0 {
        return LEFT;
    }
    if s.range <= ns {
        return LEFT + WIDE;
    }
    if ns < 20000000000000000 {
        return LEFT + within(ns * WIDE / s.range);
    }
    LEFT + within(ns / (s.range / WIDE + 1))
}

// The column of a moment. None lies outside the chart.
pub fn column(s: Scale, moment: u64) -> u64
    ensures { (390 ≤ result) × (result ≤ 1070) }
{
    column_of(s, moment.saturating_sub(s.low))
}

// A time of which a range has so many tens: one, two or five of them, such that at most seven numbers stand on the scale.
fn round(tens: u64, many: u64) -> u64
    requires { (1 ≤ tens) × (tens ≤ 1000000000000000000) }
    ensures { 1 ≤ result }
{
    if many <= 6 {
        return tens;
    }
    if many <= 13 {
        return tens * 2;
    }
    tens * 5
}

// From one number of the scale to the next, a microsecond or more.
pub fn step_of(range: u64) -> u64
    ensures { 1 ≤ result }
{
    let mut tens: u64 = 1000;
    let mut many = range / 1000;
    // No `for`: the bound on `tens` is what keeps the product in 64 bits.
    while tens <= 100000000000000000 {
        if many <= 34 {
            return round(tens, many);
        }
        tens = tens * 10;
        many = many / 10;
    }
    round(tens, many)
}
