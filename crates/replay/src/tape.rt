// A tape: its configuration makes the machine, and its events run.
ghost use Rattle.std.specs.Prelude.{◌≡◌, ◌-◌, ◌≤◌, length, take, drop};
ghost use Rattle.std.proofs.lemmas.List.Edits.{sets};
ghost use Rattle.replay.specs.Replay.{ended, replay_from, replay_of, Gives};

use super::frames::configuration_at;
use super::run::{Replayed, run};
use configuration::{fill_configuration, read_configuration};
use numbers::refusal::refusal_number;

fn stopped(status: u8) -> Replayed
    ensures { Gives result (ended status 0) }
{
    Replayed {
        status,
        place: 0,
        written: 0,
        calls: 0,
    }
}

// A tape whose configuration stands from start up to end.
fn configured(tape: &[u8], out: &mut [u8], start: usize, end: usize) -> Replayed
    requires { (start ≤ end) × (end ≤ length tape.now) }
    ensures numbers { Gives result (replay_from tape.now (take (end - start) (drop start tape.now)) end (length out.old)) }
    ensures bytes { out.new ≡ sets out.old 0 (replay_from tape.now (take (end - start) (drop start tape.now)) end (length out.old)).bytes }
{
    let body = &tape[start..end];
    match read_configuration(body) {
        Err(f) => stopped(refusal_number(f.refusal)),
        Ok((s, _)) => {
            let c = fill_configuration(body, s);
            run(tape, out, end, s.rules, s.timing, c.alts, c.names)
        }
    }
}

// Replays a tape: the answers lie one after the other at the front of `out`, and no byte behind them is touched. It stops at a refused
// configuration, at a framing fault, and with 13 at an event whose answer does not fit; the place is where the stopped record begins, or the
// tape's length.
pub fn replay(tape: &[u8], out: &mut [u8]) -> Replayed
    ensures numbers { Gives result (replay_of tape.now (length out.old)) }
    ensures bytes { out.new ≡ sets out.old 0 (replay_of tape.now (length out.old)).bytes }
{
    match configuration_at(tape) {
        Err(e) => stopped(refusal_number(e)),
        Ok((b, next)) => configured(tape, out, b.start, next),
    }
}
