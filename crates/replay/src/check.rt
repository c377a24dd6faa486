// Tape check: the first fault of a tape, in its framing or in a body; 0 where it has none.
ghost use Rattle.std.specs.Prelude.{◌≡◌, ◌-◌, ◌≤◌, length, take, drop};
ghost use Rattle.bodies.specs.Events.{event_at, fault_of, fault_shown};
ghost use Rattle.configuration.specs.Configuration.{setup_at};
ghost use Rattle.replay.specs.Check.{check_events, check_of, fault_number};

use super::frames::{configuration_at, frame_at};
use bodies::body_fault;
use configuration::configuration_fault;
use numbers::refusal::{Refusal, refusal_number};
use parts::reading::Fault;

// Whether a body that is read to its end has a fault.
fn faultless(read: Result<usize, Fault>) -> Result<(), Refusal>
    ensures { fault_number result ≡ (fault_shown read).number }
{
    match read {
        Ok(_) => Ok(()),
        Err(f) => Err(f.refusal),
    }
}

// The event whose body stands from start up to end.
fn check_event(tape: &[u8], start: usize, end: usize) -> Result<(), Refusal>
    requires { (start ≤ end) × (end ≤ length tape.now) }
    ensures { fault_number result ≡ (fault_of (event_at (take (end - start) (drop start tape.now)))).number }
{
    faultless(body_fault(&tape[start..end]))
}

// The configuration whose body stands there.
fn check_setup(tape: &[u8], start: usize, end: usize) -> Result<(), Refusal>
    requires { (start ≤ end) × (end ≤ length tape.now) }
    ensures { fault_number result ≡ (fault_of (setup_at (take (end - start) (drop start tape.now)))).number }
{
    faultless(configuration_fault(&tape[start..end]))
}

fn check_events(tape: &[u8], first: usize) -> Result<(), Refusal>
    ensures { fault_number result ≡ check_events (length tape.now) tape.now first }
{
    let mut at = first;
    // (no `for`: a frame says where the next one begins)
    while at < tape.len() {
        let (f, next) = frame_at(tape, at)?;
        check_event(tape, f.body.start, next)?;
        at = next;
    }
    Ok(())
}

fn check_all(tape: &[u8]) -> Result<(), Refusal>
    ensures { fault_number result ≡ check_of tape.now }
{
    let (b, next) = configuration_at(tape)?;
    check_setup(tape, b.start, next)?;
    check_events(tape, next)
}

// A number, as the C entry hands it out.
pub fn tape_check(tape: &[u8]) -> u8
    ensures { result ≡ check_of tape.now }
{
    match check_all(tape) {
        Ok(()) => 0,
        Err(e) => refusal_number(e),
    }
}
