// Frames of a tape: where each body lies.
ghost use Rattle.std.specs.Prelude.{◌≡◌, ◌≤◌, ◌<◌, length, ℕ, Ok};
ghost use Rattle.numbers.specs.Shown.{shown};
ghost use Rattle.replay.specs.Frames.{body_at, frame_at};

use numbers::field::{Span, read_at_most, read_bytes};
use numbers::number::read_number;
use numbers::refusal::Refusal;

const LONGEST_BODY: u64 = 4096;

// An event's moment, and where its body stands.
#[derive(Clone, Copy, Debug, PartialEq, Eq)]
pub struct Frame {
    pub moment: u64,
    pub body: Span,
}

// A length, then so many bytes; the length is tested before they are.
#[tactic(auto, unfolding(crate::specs::Frames::body_at, numbers::specs::Fields::at_most))]
fn body_at(tape: &[u8], at: usize) -> Result<(Span, usize), Refusal>
    ensures { shown result ≡ body_at tape.now at }
{
    let (len, start) = read_at_most(tape, at, LONGEST_BODY, Refusal::OutOfRange)?;
    read_bytes(tape, start, len as usize)
}

// The configuration, with which a tape begins, and the place after it.
pub fn configuration_at(tape: &[u8]) -> Result<(Span, usize), Refusal>
    ensures shown { shown result ≡ body_at tape.now 0 }
    ensures within { (b : Span) (next : ℕ) → result ≡ Ok (b, next) → (b.start ≤ next) × (next ≤ length tape.now) }
{
    body_at(tape, 0)
}

// The event at a place, and the place after it.
#[tactic(auto, unfolding(crate::specs::Frames::frame_at))]
pub fn frame_at(tape: &[u8], at: usize) -> Result<(Frame, usize), Refusal>
    ensures shown { shown result ≡ frame_at tape.now at }
    ensures within { (f : Frame) (next : ℕ) → result ≡ Ok (f, next) → (at < next) × (f.body.start ≤ next) × (next ≤ length tape.now) }
{
    let (moment, start) = read_number(tape, at)?;
    let (body, next) = body_at(tape, start)?;
    Ok((Frame { moment, body }, next))
}
