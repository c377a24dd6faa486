// Tapes from standard input, one after the other, as differential/README.md says: each is the tape's length and the answer buffer's size, 8
// bytes each, low byte first, then the tape. Of standard input no contract can say what is read (docs/LOOSE.md, 1).
#![tactic(auto)]

ghost use Rattle.std.specs.Io.KnownBytes.{Consumes, IsAtEnd};
ghost use Rattle.std.specs.Prelude.{◌≡◌, ◌≤◌, ◌<◌, length, take, IfOk, IfSome, OnErr, ℕ};

use console::complain;
use std::io;
use std::io::Read;

const LONGEST: usize = 65536;

// What stands before a tape: its length, and the size of the buffer for its answers.
#[derive(Clone, Copy)]
pub struct Sizes {
    pub tape: u64,
    pub room: u64,
}

// A number in 8 bytes, low byte first.
fn eight(bytes: &[u8]) -> u64 {
    bytes.iter().rev().fold(0, |n, b| n << 8 | *b as u64)
}

// Reads until the buffer is full or the input ends; how many bytes came. After an error what came before it stands at the buffer's front.
pub fn read_full<R: Read>(stdin: &mut R, buf: &mut [u8]) -> io::Result<usize>
    ensures within { IfOk result (λ n. n ≤ length buf.new) }
    ensures bytes { IfOk result (λ n. Consumes (R.remaining stdin.old) (R.remaining stdin.new) (take n buf.new)) }
    ensures end { IfOk result (λ n. n < length buf.new → IsAtEnd (R.remaining stdin.new)) }
    ensures err { OnErr result ((n : ℕ) × (n ≤ length buf.new) × Consumes (R.remaining stdin.old) (R.remaining stdin.new) (take n buf.new)) }
    ensures length { length buf.new ≡ length buf.old }
{
    let mut done: usize = 0;
    // No `for`: how many bytes a read gives is known only afterwards.
    while done < buf.len() {
        let n = stdin.read(&mut buf[done..])?;
        if n == 0 {
            return Ok(done);
        }
        done += n;
    }
    Ok(done)
}

// Reads what stands before a tape; None at the end of the input.
fn read_head(
    stdin: &mut impl Read,
    stderr: &impl Print,
    program: &str,
) -> io::Result<Option<Sizes>> {
    let mut head = [0u8; 16];
    let got = read_full(stdin, &mut head)?;
    if got == 16 {
        return Ok(Some(Sizes {
            tape: eight(&head[..8]),
            room: eight(&head[8..]),
        }));
    }
    if 0 < got {
        complain(stderr, program, "the input ends before a tape")?;
    }
    Ok(None)
}

// Reads the next tape; None at the end of the input. A longer tape, or an input that ends inside one, is told on standard error under the
// program's name, and is the end.
pub fn next_tape(
    stdin: &mut impl Read,
    stderr: &impl Print,
    tape: &mut [u8; LONGEST],
    program: &str,
) -> io::Result<Option<Sizes>> {
    let Some(sizes) = read_head(stdin, stderr, program)? else {
        return Ok(None);
    };
    if (LONGEST as u64) < sizes.tape {
        complain(stderr, program, "a tape of more than 65,536 bytes")?;
        return Ok(None);
    }
    let n = sizes.tape as usize;
    if read_full(stdin, &mut tape[..n])? < n {
        complain(stderr, program, "the input ends inside a tape")?;
        return Ok(None);
    }
    Ok(Some(sizes))
}

// Reads the one tape that the input is, and gives its length. None of a longer one, which is told on standard error.
pub fn only_tape(
    stdin: &mut impl Read,
    stderr: &impl Print,
    tape: &mut [u8; LONGEST],
    program: &str,
) -> io::Result<Option<usize>>
    ensures { IfOk result (λ r. IfSome r (λ n. n ≤ 65536)) }
{
    let n = read_full(stdin, &mut tape[..])?;
    let mut more = [0u8; 1];
    if n == LONGEST && 0 < read_full(stdin, &mut more)? {
        complain(stderr, program, "more than 65,536 bytes")?;
        return Ok(None);
    }
    Ok(Some(n))
}

pub fn least(a: u64, b: usize) -> usize
    ensures { result ≤ b }
{
    if a < b as u64 { a as usize } else { b }
}
