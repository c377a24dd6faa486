// What the programs write alike: bytes in hexadecimal, and complaints. No contract can say what is written (docs/LOOSE.md, 1).
#![tactic(auto)]

use std::{fmt, io};

// Each byte in two hexadecimal digits, with a space before it.
#[derive(Clone, Copy)]
pub struct Hex<'a>(pub &'a [u8]);

impl fmt::Display for Hex<'_> {
    fn fmt<W: fmt::Write>(&self, f: &mut fmt::Formatter<W>) -> fmt::Result {
        for b in self.0 {
            write!(f, " {b:02x}")?;
        }
        Ok(())
    }
}

// What went wrong, to standard error, after the program's name.
pub fn complain(stderr: &impl Print, program: &str, fault: &str) -> io::Result<()> {
    println!(stderr; "{program}: {fault}")
}
