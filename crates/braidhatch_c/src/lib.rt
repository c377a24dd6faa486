// The exports of libbraidhatch.a: each calls the function of its name in `braidhatch` and repeats its promise. A crate is a library or an
// archive, not both, and `braidhatch` is the library.
#![tactic(auto)]

ghost use Rattle.std.specs.Prelude.{◌≡◌};
ghost use Rattle.pacing.specs.Pacing.{delay_of};
ghost use Rattle.replay.specs.Check.{check_of};
ghost use Rattle.braidhatch.specs.Report.{replay_status, answers_after, report_after};

// The wait before another attempt, with some in progress.
#[unsafe(no_mangle)]
pub extern "C" fn braidhatch_attempt_delay(delay: u64, multiplier: u32, in_progress: u64) -> u64
    ensures { result ≡ delay_of delay multiplier in_progress }
{
    braidhatch::braidhatch_attempt_delay(delay, multiplier, in_progress)
}

// The number of a tape's first fault, or 0.
#[unsafe(no_mangle)]
pub extern "C" fn braidhatch_tape_check(tape: &[u8]) -> u64
    ensures { result ≡ check_of tape.now }
{
    braidhatch::braidhatch_tape_check(tape)
}

// Replays a tape: its answers lie at the front of `answers`, its four numbers fill `report`, and its status is returned. With a report of
// another length it returns 13, and neither slice is written.
#[unsafe(no_mangle)]
pub extern "C" fn braidhatch_replay(tape: &[u8], answers: &mut [u8], report: &mut [u8]) -> u64
    ensures status { result ≡ replay_status tape.now answers.old report.old }
    ensures answers { answers.new ≡ answers_after tape.now answers.old report.old }
    ensures report { report.new ≡ report_after tape.now answers.old report.old }
{
    braidhatch::braidhatch_replay(tape, answers, report)
}
