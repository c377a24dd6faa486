// Replays the tape on standard input, of at most 65,536 bytes, and says what became of it: replay's four numbers, tape check's number, and
// each answer in hexadecimal, one to a line, after the word for its kind. A longer tape is told on standard error, and nothing else is
// written.
#![tactic(auto)]

ghost use Rattle.std.specs.Prelude.{◌≤◌, ◌<◌, length};

use console::Hex;
use intake::only_tape;
use reader::answer_at;
use std::io;

// The answers to no tape of 65,536 bytes take more (proved: tapes/Claims room_for).
const ROOM: usize = 336434;

// The word for an answer's kind, by its first byte.
fn kind(first: u8) -> &'static str {
    match first {
        0 => "waiting",
        1 => "query",
        2 => "timer",
        3 => "attempt",
        4 => "cancel",
        5 => "succeeded",
        6 => "failed",
        7 => "full",
        _ => "input",
    }
}

// Where the answer that begins at `at` ends; an answer that can't be read takes the rest.
fn end_of(s: &[u8], at: usize) -> usize
    requires { at < length s.now }
    ensures { (at < result) × (result ≤ length s.now) }
{
    match answer_at(s, at) {
        Ok((_, next)) if at < next && next <= s.len() => next,
        _ => s.len(),
    }
}

fn show_answers(rt: &impl Print, s: &[u8]) -> io::Result<()> {
    let mut at: usize = 0;
    // No `for`: where the next answer begins is known only when this one is read.
    while at < s.len() {
        let end = end_of(s, at);
        println!(rt; "{:<9}{}", kind(s[at]), Hex(&s[at..end]))?;
        at = end;
    }
    Ok(())
}

fn show_replay(rt: &impl Print, tape: &[u8], out: &mut [u8]) -> io::Result<()> {
    let r = replay::tape::replay(tape, out);
    println!(rt; "status  {}", r.status)?;
    println!(rt; "place   {}", r.place)?;
    println!(rt; "written {}", r.written)?;
    println!(rt; "calls   {}", r.calls)?;
    println!(rt; "check   {}", replay::check::tape_check(tape))?;
    match out.get(..r.written) {
        Some(answers) => show_answers(rt, answers),
        None => Ok(()),
    }
}

fn main(rt: HostRuntime) -> io::Result<()> {
    let mut tape = [0u8; 65536];
    let Some(n) = only_tape(&mut rt.stdin(), &rt.stderr(), &mut tape, "tape")? else {
        return Ok(());
    };
    let mut out = [0u8; ROOM];
    show_replay(&rt, &tape[..n], &mut out)
}
