// Sessions with a live machine. Takes tapes from standard input as differential/README.md says, each of at most 65,536 bytes: the tape's
// length and the answer buffer's size, 8 bytes each, low byte first, then the tape. Each goes event by event through the two calls to which
// the machine is lent; for each it writes how many bytes were answered, and whether they are replay's.
#![tactic(auto)]

use configuration::read_configuration;
use intake::{least, next_tape};
use live::{machine_of, process_input, process_output};
use numbers::put::put_bytes;
use numbers::refusal::Refusal;
use replay::frames::{configuration_at, frame_at};
use state::Machine;
use std::io;

const TAPE: usize = 65536;

const ROOM: usize = 336434;

// The answer to an event: the call is the body of the single byte 7, and an input is answered with 8 and its number.
fn answer(m: &mut Machine, moment: u64, body: &[u8], out: &mut [u8]) -> Result<usize, Refusal> {
    if let [7] = body {
        return process_output(m, moment, out);
    }
    let number = process_input(m, moment, body);
    put_bytes(out, 0, &[8, number])
}

// The events of a tape from a place on, up to the one that gets no answer; how many bytes the answers take.
fn events(tape: &[u8], from: usize, out: &mut [u8], machine: Machine) -> usize {
    let mut m = machine;
    let mut at = from;
    let mut written: usize = 0;
    // No `for`: where the next event begins is known only when this one is read.
    while at < tape.len() {
        let Ok((frame, next)) = frame_at(tape, at) else {
            return written;
        };
        if out.len() < written {
            return written;
        }
        let room = out.len() - written;
        let body = &tape[frame.body.start..next];
        match answer(&mut m, frame.moment, body, &mut out[written..]) {
            Ok(n) if n <= room => {
                at = next;
                written += n;
            }
            _ => return written,
        }
    }
    written
}

// A whole tape; how many bytes the live machine answered.
fn live_answers(tape: &[u8], out: &mut [u8]) -> usize {
    let Ok((b, next)) = configuration_at(tape) else {
        return 0;
    };
    let start = b.start;
    let body = &tape[start..next];
    match read_configuration(body) {
        Ok((setup, _)) => events(tape, next, out, machine_of(body, setup)),
        Err(_) => 0,
    }
}

// Holds the two ways of answering a tape against each other, and the buffers whole: neither way may touch a byte behind the answers.
fn compared(rt: &impl Print, tape: &[u8], told: &mut [u8], live: &mut [u8]) -> io::Result<()> {
    let r = replay::tape::replay(tape, told);
    let written = live_answers(tape, live);
    let whose = if written == r.written && &*told == &*live {
        "replay's"
    } else {
        "not replay's"
    };
    println!(rt; "{written} bytes of answers, {whose}")
}

fn main(rt: HostRuntime) -> io::Result<()> {
    let mut stdin = rt.stdin();
    let stderr = rt.stderr();
    let mut tape = [0u8; TAPE];
    let mut told = [0u8; ROOM];
    let mut live = [0u8; ROOM];
    // More tapes than any input has.
    for _ in 0..u64::MAX {
        let Some(sizes) = next_tape(&mut stdin, &stderr, &mut tape, "session")? else {
            return Ok(());
        };
        let n = least(sizes.tape, TAPE);
        let m = least(sizes.room, ROOM);
        compared(&rt, &tape[..n], &mut told[..m], &mut live[..m])?;
    }
    Ok(())
}
