// The exports of libprobes.a: each calls the function of its name in `probes` and repeats its promise. A crate is a library or an archive,
// not both, and `probes` is the library.
#![tactic(auto)]

ghost use Rattle.std.specs.Prelude.{◌≡◌, length};
ghost use Rattle.deal.specs.Answer.{deal_answer, deal_out};
ghost use Rattle.numbers.specs.Fields.{at_most, bytes_at, name_at};
ghost use Rattle.numbers.specs.Names.{name_ok, longest_name, longest_origin};
ghost use Rattle.numbers.specs.Numbers.{read_number, number_bytes};
ghost use Rattle.numbers.specs.Put.{put_answer, put_bytes};
ghost use Rattle.numbers.specs.Refusals.{refusal_number};
ghost use Rattle.pacing.specs.Ids.{first_id, next_id};
ghost use Rattle.pacing.specs.Pacing.{factor_of, product_of, delay_of};
ghost use Rattle.records.specs.Classes.{same_names};
ghost use Rattle.records.specs.Endpoints.{same_endpoint};
ghost use Rattle.records.specs.Names.{connect_name, same_at};
ghost use Rattle.probes.specs.Words.{filled, number_of, read_words, span_words, put_number, put_words, flag_of, refusal_at, issued_words};
ghost use Rattle.probes.specs.Flat.{echs_of, endpoint_of, names_of};

#[unsafe(no_mangle)]
pub extern "C" fn probe_read_number(s: &[u8], at: usize, words: &mut [u64]) -> u8
    ensures answer { result ≡ number_of (read_number s.now at) }
    ensures values { words.new ≡ filled words.old (read_words (read_number s.now at)) }
{
    probes::of_numbers::probe_read_number(s, at, words)
}

#[unsafe(no_mangle)]
pub extern "C" fn probe_number_len(n: u64) -> usize
    ensures { result ≡ length (number_bytes n) }
{
    probes::of_numbers::probe_number_len(n)
}

#[unsafe(no_mangle)]
pub extern "C" fn probe_write_number(out: &mut [u8], at: usize, n: u64, words: &mut [u64]) -> u8
    ensures answer { result ≡ put_number (put_answer out.old at (number_bytes n)) }
    ensures bytes { out.new ≡ put_bytes out.old at (number_bytes n) }
    ensures values { words.new ≡ filled words.old (put_words (put_answer out.old at (number_bytes n))) }
{
    probes::of_numbers::probe_write_number(out, at, n, words)
}

#[unsafe(no_mangle)]
pub extern "C" fn probe_put_bytes(out: &mut [u8], at: usize, bytes: &[u8], words: &mut [u64]) -> u8
    ensures answer { result ≡ put_number (put_answer out.old at bytes.now) }
    ensures bytes { out.new ≡ put_bytes out.old at bytes.now }
    ensures values { words.new ≡ filled words.old (put_words (put_answer out.old at bytes.now)) }
{
    probes::of_numbers::probe_put_bytes(out, at, bytes, words)
}

// A number above the limit gets the refusal at the place over of the table.
#[unsafe(no_mangle)]
pub extern "C" fn probe_read_at_most(
    s: &[u8],
    at: usize,
    limit: u64,
    over: usize,
    words: &mut [u64],
) -> u8
    ensures answer { result ≡ number_of (at_most limit (refusal_number (refusal_at over)) (read_number s.now at)) }
    ensures values { words.new ≡ filled words.old (read_words (at_most limit (refusal_number (refusal_at over)) (read_number s.now at))) }
{
    probes::of_numbers::probe_read_at_most(s, at, limit, over, words)
}

#[unsafe(no_mangle)]
pub extern "C" fn probe_read_bytes(s: &[u8], at: usize, len: usize, words: &mut [u64]) -> u8
    ensures answer { result ≡ number_of (bytes_at s.now len at) }
    ensures values { words.new ≡ filled words.old (span_words (bytes_at s.now len at)) }
{
    probes::of_numbers::probe_read_bytes(s, at, len, words)
}

#[unsafe(no_mangle)]
pub extern "C" fn probe_name_ok(s: &[u8]) -> u8
    ensures { result ≡ flag_of (name_ok s.now) }
{
    probes::of_numbers::probe_name_ok(s)
}

#[unsafe(no_mangle)]
pub extern "C" fn probe_read_name(s: &[u8], at: usize, words: &mut [u64]) -> u8
    ensures answer { result ≡ number_of (name_at s.now longest_name at) }
    ensures values { words.new ≡ filled words.old (span_words (name_at s.now longest_name at)) }
{
    probes::of_numbers::probe_read_name(s, at, words)
}

#[unsafe(no_mangle)]
pub extern "C" fn probe_read_origin(s: &[u8], at: usize, words: &mut [u64]) -> u8
    ensures answer { result ≡ number_of (name_at s.now longest_origin at) }
    ensures values { words.new ≡ filled words.old (span_words (name_at s.now longest_origin at)) }
{
    probes::of_numbers::probe_read_origin(s, at, words)
}

#[unsafe(no_mangle)]
pub extern "C" fn probe_factor(multiplier: u32, in_progress: u64) -> u32
    ensures { result ≡ factor_of multiplier in_progress }
{
    probes::of_pacing::probe_factor(multiplier, in_progress)
}

#[unsafe(no_mangle)]
pub extern "C" fn probe_product(delay: u64, factor: u32) -> u64
    ensures { result ≡ product_of delay factor }
{
    probes::of_pacing::probe_product(delay, factor)
}

#[unsafe(no_mangle)]
pub extern "C" fn probe_attempt_delay(delay: u64, multiplier: u32, in_progress: u64) -> u64
    ensures { result ≡ delay_of delay multiplier in_progress }
{
    probes::of_pacing::probe_attempt_delay(delay, multiplier, in_progress)
}

// The first id that a generator gives.
#[unsafe(no_mangle)]
pub extern "C" fn probe_first_id() -> u64
    ensures { result ≡ first_id.next }
{
    probes::of_pacing::probe_first_id()
}

// The id that is given where id comes next, and the one that comes next then.
#[unsafe(no_mangle)]
pub extern "C" fn probe_next_id(id: u64, words: &mut [u64])
    ensures { words.new ≡ filled words.old (issued_words (next_id (record { next = id }))) }
{
    probes::of_pacing::probe_next_id(id, words);
}

#[unsafe(no_mangle)]
pub extern "C" fn probe_deal(groups: &[u8], out: &mut [u16]) -> u8
    ensures answer { result ≡ deal_answer groups.now (length out.old) }
    ensures room { out.new ≡ deal_out groups.now out.old }
{
    probes::of_deal::probe_deal(groups, out)
}

// The host of a by-name endpoint, as bytes from the start of `out`.
#[unsafe(no_mangle)]
pub extern "C" fn probe_connect_name<'a>(
    origin: &'a [u8],
    own: &'a [u8],
    out: &mut [u8],
    words: &mut [u64],
) -> u8
    ensures answer { result ≡ put_number (put_answer out.old 0 (connect_name origin.now own.now)) }
    ensures bytes { out.new ≡ put_bytes out.old 0 (connect_name origin.now own.now) }
    ensures values { words.new ≡ filled words.old (put_words (put_answer out.old 0 (connect_name origin.now own.now))) }
{
    probes::of_records::probe_connect_name(origin, own, out, words)
}

// Whether two endpoints are one. The list has the numbers of both, then the lengths of 14 names and of 40 ECH configurations.
#[unsafe(no_mangle)]
pub extern "C" fn probe_same_endpoint(list: &[u64], bytes: &[u8], ech: &[u8]) -> u8
    ensures { result ≡ flag_of (same_endpoint (names_of list.now 14 bytes.now) (echs_of list.now 28 ech.now) (endpoint_of list.now 0) (endpoint_of list.now 7)) }
{
    probes::of_records::probe_same_endpoint(list, bytes, ech)
}

// The class of each of 14 names, as far as there are words.
#[unsafe(no_mangle)]
pub extern "C" fn probe_same_names(lengths: &[u64], bytes: &[u8], words: &mut [u64])
    ensures { words.new ≡ filled words.old (same_names (names_of lengths.now 0 bytes.now)).list }
{
    probes::of_records::probe_same_names(lengths, bytes, words);
}

// Whether two places of 14 names hold the same name.
#[unsafe(no_mangle)]
pub extern "C" fn probe_same_class(lengths: &[u64], bytes: &[u8], p: u8, q: u8) -> u8
    ensures { result ≡ flag_of (same_at (names_of lengths.now 0 bytes.now) p q) }
{
    probes::of_records::probe_same_class(lengths, bytes, p, q)
}

// The state's listing in `out`, as far as there is room; gives its length.
#[unsafe(no_mangle)]
pub extern "C" fn list_state(state: &[u64], bytes: &[u8], out: &mut [u64]) -> usize {
    probes::of_listing::list_state(state, bytes, out)
}

// Lists the state so many times, each time at another port of the origin: the sum of each listing's length and of one of its ports, for timing from outside.
#[unsafe(no_mangle)]
pub extern "C" fn list_rounds(state: &[u64], bytes: &[u8], rounds: usize) -> u64 {
    probes::of_listing::list_rounds(state, bytes, rounds)
}
