// The program under test of differential/README.md: replays and checks tapes from standard input until it ends. Each is the tape's length
// and the answer buffer's size, 8 bytes each, low byte first, then the tape; for each it writes the line `status place written calls check`
// and then exactly the written bytes of answers. A tape has at most 65,536 bytes; of a larger buffer 336,434 bytes are taken, which the
// answers to no such tape pass (proved: tapes/Claims room_for). A longer tape, or an input that ends inside one, is told on standard error and ends the program.
#![tactic(auto)]

use intake::{least, next_tape};
use std::io;

const TAPE: usize = 65536;

const ROOM: usize = 336434;

fn answer(rt: &impl Print, tape: &[u8], out: &mut [u8]) -> io::Result<()> {
    let r = replay::tape::replay(tape, out);
    let check = replay::check::tape_check(tape);
    println!(rt;
        "{} {} {} {} {check}",
        r.status, r.place, r.written, r.calls
    )?;
    match out.get(..r.written) {
        Some(answers) => rt.write_all(answers),
        None => Ok(()),
    }
}

fn main(rt: HostRuntime) -> io::Result<()> {
    let mut stdin = rt.stdin();
    let stderr = rt.stderr();
    let mut tape = [0u8; TAPE];
    let mut out = [0u8; ROOM];
    // More tapes than any input has.
    for _ in 0..u64::MAX {
        let Some(sizes) = next_tape(&mut stdin, &stderr, &mut tape, "many")? else {
            return Ok(());
        };
        let n = least(sizes.tape, TAPE);
        let m = least(sizes.room, ROOM);
        answer(&rt, &tape[..n], &mut out[..m])?;
    }
    Ok(())
}
