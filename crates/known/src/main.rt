// Runs the known examples (part K of docs/RULES.md) and says what each gives.
#![tactic(auto)]

ghost use Rattle.known.specs.Known.{Known};

use console::Hex;
use numbers::number::{read_number, write_number};
use numbers::refusal::refusal_number;
use pacing::delay::{factor, product};
use pacing::id::IdGenerator;
use std::io;

fn show_factor(rt: &impl Print, multiplier: u32, in_progress: u64) -> io::Result<()> {
    let factor = factor(multiplier, in_progress);
    println!(rt; "multiplier {multiplier}, in progress {in_progress}: factor {factor}")
}

fn show_product(rt: &impl Print, delay: u64, factor: u32) -> io::Result<()> {
    let product = product(delay, factor);
    println!(rt; "delay {delay} ns times {factor}: {product} ns")
}

fn show_written(rt: &impl Print, n: u64) -> io::Result<()> {
    let mut out = [0u8; 10];
    // Any number fits 10 bytes.
    let end = write_number(&mut out, 0, n).unwrap_or(0);
    println!(rt; "{n} is written{}", Hex(&out[..end.min(10)]))
}

fn show_read(rt: &impl Print, s: &[u8]) -> io::Result<()> {
    let bytes = Hex(s);
    match read_number(s, 0) {
        Ok((v, next)) => println!(rt; "the bytes{bytes} read as {v}, next place {next}"),
        Err(e) => println!(rt; "the bytes{bytes} read as {} {e:?}", refusal_number(e)),
    }
}

fn show_id(rt: &impl Print, next: u64) -> io::Result<()> {
    let issued = IdGenerator { next }.next_id();
    println!(rt; "after id {} comes {}", issued.id, issued.ids.next)
}

// H3 v6 a, H3 v6 b, H3 v4 c and H2 v4 d are in groups 0, 0, 1 and 5 where v6 is preferred.
fn show_dealt(rt: &impl Print) -> io::Result<()> {
    let groups = [0u8, 0, 1, 5];
    let letters = ["a", "b", "c", "d"];
    let mut order = [0u16; 4];
    deal::deal(&groups, &mut order);
    print!(rt; "H3 v6 a, H3 v6 b, H3 v4 c, H2 v4 d, preferring v6:")?;
    for at in &order {
        print!(rt; " {}", letters[*at as usize % 4])?;
    }
    println!(rt; "")
}

fn show_replayed(rt: &impl Print, name: &str, tape: &[u8]) -> io::Result<()> {
    let mut out = [0u8; 64];
    let r = replay::tape::replay(tape, &mut out);
    let answers = Hex(out.get(..r.written).unwrap_or(&[]));
    println!(rt;
        "the {name} tape: status {}, place {}, bytes {}, calls {}; answers{answers}",
        r.status, r.place, r.written, r.calls
    )
}

// The call at a moment after the one answer, which came at 0: a timer while the delay isn't met, an attempt once it is.
fn show_resolution(rt: &impl Print, after: u64) -> io::Result<()> {
    let mut tape =
        *b"\x15\xBB\x03\x00\x03a.b\x07\x00\x00\x80\xE1\xEB\x17\x80\xE5\x9A\x77\x01\x03\x00\x00\x01\x07\x00\x01\x07\
        \x00\x01\x07\x00\x08\x02\x02\x00\x01\xC0\x00\x02\x01\x00\x00\x00\x00\x01\x07";
    let _ = write_number(&mut tape, 41, after);
    let mut out = [0u8; 64];
    replay::tape::replay(&tape, &mut out);
    let said = match out[26] {
        2 => "delay not met",
        3 => "delay met",
        _ => "neither a timer nor an attempt",
    };
    println!(rt; "resolution {after} ns after the answer: {said}")
}

// What the definitions give for the examples is what is said of them.
pub fn examples_hold()
    ensures { Known }
{}

fn main(rt: HostRuntime) -> io::Result<()> {
    examples_hold();
    show_factor(&rt, 2, 0)?;
    show_factor(&rt, 2, 1)?;
    show_factor(&rt, 2, 32)?;
    show_factor(&rt, 3, 21)?;
    show_factor(&rt, 3, 22)?;
    show_factor(&rt, 65535, 3)?;
    show_factor(&rt, 65536, 3)?;
    show_product(&rt, 250000000, 4294967295)?;
    show_product(&rt, 4294967297, 4294967295)?;
    show_product(&rt, 8589934592, 2147483648)?;
    show_written(&rt, 443)?;
    show_read(&rt, b"\x80\x00")?;
    show_read(&rt, b"\x80")?;
    show_dealt(&rt)?;
    show_id(&rt, 18446744073709551615)?;
    show_resolution(&rt, 49999999)?;
    show_resolution(&rt, 50000000)?;
    show_replayed(
        &rt,
        "whole",
        b"\x15\xBB\x03\x01\xC0\x00\x02\x01\x07\x00\x00\x80\xE1\xEB\x17\x80\xE5\x9A\x77\x01\x03\x00\
        \x00\x01\x07\x00\x01\x07\x64\x02\x05\x00\x64\x01\x07",
    )?;
    show_replayed(&rt, "empty", b"")
}
