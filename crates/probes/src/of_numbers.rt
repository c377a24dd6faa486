// Entries over `numbers`.
ghost use Rattle.std.specs.Prelude.{◌≡◌, length};
ghost use Rattle.numbers.specs.Fields.{at_most, bytes_at, name_at};
ghost use Rattle.numbers.specs.Names.{name_ok, longest_name, longest_origin};
ghost use Rattle.numbers.specs.Numbers.{read_number, number_bytes};
ghost use Rattle.numbers.specs.Put.{put_answer, put_bytes};
ghost use Rattle.numbers.specs.Refusals.{refusal_number};
ghost use Rattle.numbers.specs.Shown.{shown, wrote_shown};
ghost use Rattle.probes.specs.Words.{filled, number_of, read_words, span_words, put_number, put_words, flag_of, refusal_at};

use super::words::put_word;
use numbers::field::Span;
use numbers::refusal::{Refusal, refusal_number};

#[tactic(auto, unfolding(crate::specs::Words::filled))]
fn tell_read(r: Result<(u64, usize), Refusal>, words: &mut [u64]) -> u8
    ensures answer { result ≡ number_of (shown r) }
    ensures values { words.new ≡ filled words.old (read_words (shown r)) }
{
    match r {
        Ok((v, next)) => {
            put_word(words, 0, v);
            put_word(words, 1, next as u64);
            0
        }
        Err(e) => refusal_number(e),
    }
}

#[tactic(auto, unfolding(crate::specs::Words::filled))]
fn tell_span(r: Result<(Span, usize), Refusal>, words: &mut [u64]) -> u8
    ensures answer { result ≡ number_of (shown r) }
    ensures values { words.new ≡ filled words.old (span_words (shown r)) }
{
    match r {
        Ok((b, next)) => {
            put_word(words, 0, b.start as u64);
            put_word(words, 1, b.len as u64);
            put_word(words, 2, next as u64);
            0
        }
        Err(e) => refusal_number(e),
    }
}

#[tactic(auto, unfolding(crate::specs::Words::filled))]
pub fn tell_wrote(r: Result<usize, Refusal>, words: &mut [u64]) -> u8
    ensures answer { result ≡ put_number (wrote_shown r) }
    ensures values { words.new ≡ filled words.old (put_words (wrote_shown r)) }
{
    match r {
        Ok(next) => {
            put_word(words, 0, next as u64);
            0
        }
        Err(e) => refusal_number(e),
    }
}

// The refusal at a place of the table, from 0; past its end the first.
#[tactic(auto, unfolding(crate::specs::Words::refusal_at))]
fn refusal_at(place: usize) -> Refusal
    ensures { result ≡ refusal_at place }
{
    let table = [
        Refusal::Cut,
        Refusal::BadNumber,
        Refusal::OutOfRange,
        Refusal::BadName,
        Refusal::TooMany,
        Refusal::Trailing,
        Refusal::UnknownId,
        Refusal::AlreadyAnswered,
        Refusal::WrongType,
        Refusal::StaleRefresh,
        Refusal::EchNotSent,
        Refusal::AlreadyEnded,
        Refusal::NoRoom,
    ];
    if place < 13 {
        table[place]
    } else {
        Refusal::Cut
    }
}

#[unsafe(no_mangle)]
pub extern "C" fn probe_read_number(s: &[u8], at: usize, words: &mut [u64]) -> u8
    ensures answer { result ≡ number_of (read_number s.now at) }
    ensures values { words.new ≡ filled words.old (read_words (read_number s.now at)) }
{
    tell_read(numbers::number::read_number(s, at), words)
}

#[unsafe(no_mangle)]
pub extern "C" fn probe_number_len(n: u64) -> usize
    ensures { result ≡ length (number_bytes n) }
{
    numbers::number::number_len(n)
}

#[unsafe(no_mangle)]
pub extern "C" fn probe_write_number(out: &mut [u8], at: usize, n: u64, words: &mut [u64]) -> u8
    ensures answer { result ≡ put_number (put_answer out.old at (number_bytes n)) }
    ensures bytes { out.new ≡ put_bytes out.old at (number_bytes n) }
    ensures values { words.new ≡ filled words.old (put_words (put_answer out.old at (number_bytes n))) }
{
    tell_wrote(numbers::number::write_number(out, at, n), words)
}

#[unsafe(no_mangle)]
pub extern "C" fn probe_put_bytes(out: &mut [u8], at: usize, bytes: &[u8], words: &mut [u64]) -> u8
    ensures answer { result ≡ put_number (put_answer out.old at bytes.now) }
    ensures bytes { out.new ≡ put_bytes out.old at bytes.now }
    ensures values { words.new ≡ filled words.old (put_words (put_answer out.old at bytes.now)) }
{
    tell_wrote(numbers::put::put_bytes(out, at, bytes), words)
}

// A number above the limit gets the refusal at the place over of the table.
#[unsafe(no_mangle)]
pub extern "C" fn probe_read_at_most(
    s: &[u8],
    at: usize,
    limit: u64,
    over: usize,
    words: &mut [u64],
) -> u8
    ensures answer { result ≡ number_of (at_most limit (refusal_number (refusal_at over)) (read_number s.now at)) }
    ensures values { words.new ≡ filled words.old (read_words (at_most limit (refusal_number (refusal_at over)) (read_number s.now at))) }
{
    let refusal = refusal_at(over);
    tell_read(numbers::field::read_at_most(s, at, limit, refusal), words)
}

#[unsafe(no_mangle)]
pub extern "C" fn probe_read_bytes(s: &[u8], at: usize, len: usize, words: &mut [u64]) -> u8
    ensures answer { result ≡ number_of (bytes_at s.now len at) }
    ensures values { words.new ≡ filled words.old (span_words (bytes_at s.now len at)) }
{
    tell_span(numbers::field::read_bytes(s, at, len), words)
}

#[unsafe(no_mangle)]
pub extern "C" fn probe_name_ok(s: &[u8]) -> u8
    ensures { result ≡ flag_of (name_ok s.now) }
{
    numbers::name::name_ok(s) as u8
}

#[unsafe(no_mangle)]
pub extern "C" fn probe_read_name(s: &[u8], at: usize, words: &mut [u64]) -> u8
    ensures answer { result ≡ number_of (name_at s.now longest_name at) }
    ensures values { words.new ≡ filled words.old (span_words (name_at s.now longest_name at)) }
{
    tell_span(numbers::field::read_name(s, at), words)
}

#[unsafe(no_mangle)]
pub extern "C" fn probe_read_origin(s: &[u8], at: usize, words: &mut [u64]) -> u8
    ensures answer { result ≡ number_of (name_at s.now longest_origin at) }
    ensures values { words.new ≡ filled words.old (span_words (name_at s.now longest_origin at)) }
{
    tell_span(numbers::field::read_origin(s, at), words)
}
