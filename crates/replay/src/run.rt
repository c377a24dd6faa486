// Replay: the events of a tape, one after the other, each answered behind the last.
ghost use Rattle.std.specs.Prelude.{◌≡◌, length};
ghost use Rattle.std.proofs.lemmas.List.Edits.{sets};
ghost use Rattle.state.specs.State.{made};
ghost use Rattle.replay.specs.Replay.{run_from, Gives};

use super::frames::frame_at;
use super::race::Race;
use numbers::refusal::refusal_number;
use records::names::Names;
use records::rules::{Alts, Rules, Timing};

#[derive(Clone, Copy)]
pub struct Replayed {
    pub status: u8,
    pub place: usize,
    pub written: usize,
    pub calls: usize,
}

// The events of a tape from the place first on, over the machine that the configuration makes. The answers lie one after the other at the
// front of `out`. It stops at a framing fault, and with 13 at an event whose answer does not fit; the place is that event's first byte, or
// the tape's length.
pub fn run(
    tape: &[u8],
    out: &mut [u8],
    first: usize,
    rules: Rules,
    timing: Timing,
    alts: Alts,
    given: Names,
) -> Replayed
    ensures numbers { Gives result (run_from tape.now first (length out.old) (made rules timing alts given)) }
    ensures bytes { out.new ≡ sets out.old 0 (run_from tape.now first (length out.old) (made rules timing alts given)).bytes }
{
    let mut race = Race::new(rules, timing, alts, given);
    let mut done = Replayed {
        status: 0,
        place: first,
        written: 0,
        calls: 0,
    };
    // (no `for`: a frame says where the next one begins)
    while done.place < tape.len() {
        match frame_at(tape, done.place) {
            Err(e) => {
                done.status = refusal_number(e);
                return done;
            }
            Ok((f, next)) => {
                let body = &tape[f.body.start..next];
                match race.event(f.moment, body, out, done.written) {
                    Err(e) => {
                        done.status = refusal_number(e);
                        return done;
                    }
                    Ok((end, counted)) => {
                        done.place = next;
                        done.written = end;
                        done.calls += counted;
                    }
                }
            }
        }
    }
    done
}
