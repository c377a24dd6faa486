#![tactic(auto)]
// The shell's C entries (rules 8.8 and F.6), over numbers and byte slices alone. include/braidhatch.h says in C what stands here.
ghost use Rattle.std.specs.Prelude.{◌≡◌, ◌+◌, ◌≤◌, length};
ghost use Rattle.std.proofs.lemmas.List.Edits.{sets};
ghost use Rattle.pacing.specs.Pacing.{delay_of};
ghost use Rattle.replay.specs.Check.{check_of};
ghost use Rattle.braidhatch.specs.Report.{low_first, four_numbers, replay_status, answers_after, report_after};

use replay::run::Replayed;

// The four numbers of a report, 8 bytes each.
const REPORT_LEN: usize = 32;

// Writes a number in 8 bytes from the place at on, the lowest byte first.
fn put_number(report: &mut [u8], at: usize, n: u64)
    requires { at + 8 ≤ length report.old }
    ensures { report.new ≡ sets report.old at (low_first 8 n) }
{
    report[at..at + 8].copy_from_slice(&n.to_le_bytes());
}

fn put_report(report: &mut [u8], r: Replayed)
    requires { 32 ≤ length report.old }
    ensures { report.new ≡ sets report.old 0 (four_numbers r.status r.place r.written r.calls) }
{
    put_number(report, 0, r.status as u64);
    put_number(report, 8, r.place as u64);
    put_number(report, 16, r.written as u64);
    put_number(report, 24, r.calls as u64);
}

// The wait before another attempt, with some in progress.
#[unsafe(no_mangle)]
pub extern "C" fn braidhatch_attempt_delay(delay: u64, multiplier: u32, in_progress: u64) -> u64
    ensures { result ≡ delay_of delay multiplier in_progress }
{
    pacing::delay::attempt_delay(delay, multiplier, in_progress)
}

// The number of a tape's first fault, or 0.
#[unsafe(no_mangle)]
pub extern "C" fn braidhatch_tape_check(tape: &[u8]) -> u64
    ensures { result ≡ check_of tape.now }
{
    let n = replay::check::tape_check(tape);
    n as u64
}

// Replays a tape: its answers lie at the front of `answers`, its four numbers fill `report`, and its status is returned. With a report of
// another length it returns 13, and neither slice is written.
#[unsafe(no_mangle)]
pub extern "C" fn braidhatch_replay(tape: &[u8], answers: &mut [u8], report: &mut [u8]) -> u64
    ensures status { result ≡ replay_status tape.now answers.old report.old }
    ensures answers { answers.new ≡ answers_after tape.now answers.old report.old }
    ensures report { report.new ≡ report_after tape.now answers.old report.old }
{
    if report.len() != REPORT_LEN {
        return 13;
    }
    let r = replay::tape::replay(tape, answers);
    put_report(report, r);
    r.status as u64
}
