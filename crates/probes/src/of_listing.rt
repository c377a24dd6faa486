// Entries over `listing`, which read a state as a flat list of numbers (tests/listing.sh, `make bench`). They are proved safe and ending, and promise no more:
// what they read and write is settled by the comparison.
use super::flat::half;
use super::seven::endpoint_numbers;
use super::state::{LENGTHS, alts, answers, queries, rules, services};
use super::tables::names;
use listing::{Listing, endpoints_to_attempt};
use records::queries::Answers;
use records::references::endpoint_at;
use records::rules::{Alts, Rules};
use records::services::Services;

// The seven numbers from base on, as far as there is room.
fn put(out: &mut [u64], base: usize, numbers: [u64; 7]) {
    if let Some(room) = out.get_mut(base..) {
        for (word, number) in room.iter_mut().zip(&numbers) {
            *word = *number;
        }
    }
}

// The endpoints of a listing, seven numbers each.
fn put_listing(out: &mut [u64], l: Listing, r: Rules, a: Alts, d: Answers, s: Services) {
    for (k, item) in l.list.iter().take(l.count).enumerate() {
        let e = endpoint_at(r, a, d, s, *item);
        put(out, 7 * k, endpoint_numbers(e));
    }
}

// The state's listing in `out`, as far as there is room; gives its length.
#[unsafe(no_mangle)]
pub extern "C" fn list_state(state: &[u64], bytes: &[u8], out: &mut [u64]) -> usize {
    let r = rules(state);
    let a = alts(state);
    let s = services(state);
    let l = endpoints_to_attempt(r, a, queries(state), s, names(state, LENGTHS, bytes));
    put_listing(out, l, r, a, answers(state), s);
    l.count
}

// Lists the state so many times, each time at another port of the origin: the sum of each listing's length and of one of its ports, for timing from outside.
#[unsafe(no_mangle)]
pub extern "C" fn list_rounds(state: &[u64], bytes: &[u8], rounds: usize) -> u64 {
    let mut r = rules(state);
    let a = alts(state);
    let q = queries(state);
    let s = services(state);
    let n = names(state, LENGTHS, bytes);
    let mut sum: u64 = 0;
    for left in (1..=rounds).rev() {
        r.port = half(left as u64);
        let l = endpoints_to_attempt(r, a, q, s, n);
        let x = l.list[left % 272];
        sum = sum.wrapping_add(l.count as u64).wrapping_add(x.port as u64);
    }
    sum
}
