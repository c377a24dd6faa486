// Entries over `records`: names, their classes, and endpoints.
ghost use Rattle.std.specs.Prelude.{◌≡◌};
ghost use Rattle.numbers.specs.Put.{put_answer, put_bytes};
ghost use Rattle.records.specs.Classes.{same_names};
ghost use Rattle.records.specs.Endpoints.{same_endpoint};
ghost use Rattle.records.specs.Names.{connect_name, same_at};
ghost use Rattle.probes.specs.Flat.{echs_of, endpoint_of, names_of};
ghost use Rattle.probes.specs.Words.{filled, flag_of, put_number, put_words};

use super::of_numbers::tell_wrote;
use super::seven::endpoint;
use super::tables::{echs, names};
use super::words::put_word;
use records::endpoints::same_endpoint;
use records::names::{connect_name, same_class, same_names};

// The host of a by-name endpoint, as bytes from the start of `out`.
#[unsafe(no_mangle)]
pub extern "C" fn probe_connect_name<'a>(
    origin: &'a [u8],
    own: &'a [u8],
    out: &mut [u8],
    words: &mut [u64],
) -> u8
    ensures answer { result ≡ put_number (put_answer out.old 0 (connect_name origin.now own.now)) }
    ensures bytes { out.new ≡ put_bytes out.old 0 (connect_name origin.now own.now) }
    ensures values { words.new ≡ filled words.old (put_words (put_answer out.old 0 (connect_name origin.now own.now))) }
{
    let host = connect_name(origin, own);
    tell_wrote(numbers::put::put_bytes(out, 0, host), words)
}

// Whether two endpoints are one. The list has the numbers of both, then the lengths of 14 names and of 40 ECH configurations.
#[unsafe(no_mangle)]
pub extern "C" fn probe_same_endpoint(list: &[u64], bytes: &[u8], ech: &[u8]) -> u8
    ensures { result ≡ flag_of (same_endpoint (names_of list.now 14 bytes.now) (echs_of list.now 28 ech.now) (endpoint_of list.now 0) (endpoint_of list.now 7)) }
{
    let n = names(list, 14, bytes);
    let c = echs(list, 28, ech);
    let a = endpoint(list, 0);
    let b = endpoint(list, 7);
    same_endpoint(n, c, a, b) as u8
}

// The class of each of 14 names, as far as there are words.
#[unsafe(no_mangle)]
pub extern "C" fn probe_same_names(lengths: &[u64], bytes: &[u8], words: &mut [u64])
    ensures { words.new ≡ filled words.old (same_names (names_of lengths.now 0 bytes.now)).list }
{
    let same = same_names(names(lengths, 0, bytes));
    for p in 0..14 {
        put_word(words, p, same.list[p] as u64);
    }
}

// Whether two places of 14 names hold the same name.
#[unsafe(no_mangle)]
pub extern "C" fn probe_same_class(lengths: &[u64], bytes: &[u8], p: u8, q: u8) -> u8
    ensures { result ≡ flag_of (same_at (names_of lengths.now 0 bytes.now) p q) }
{
    let same = same_names(names(lengths, 0, bytes));
    same_class(same, p, q) as u8
}
