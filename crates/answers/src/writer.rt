// Answers written into a lent buffer: all of one, or nothing where it does not fit. Buffer and place stay two parameters, as in
// `numbers::put`: every promise speaks of both.
ghost use Rattle.std.specs.Prelude.{◌≡◌, ◌++◌, ◌+◌, ◌≤◌, length};
ghost use Rattle.numbers.specs.Put.{placed, put_answer, put_bytes};
ghost use Rattle.numbers.specs.Shown.{wrote_shown};
ghost use Rattle.records.specs.Names.{name_bytes, ech_bytes, connect_name};
ghost use Rattle.answers.specs.Answers.{query, attempt, input, bit, reason_number, table_number, high_first, answer_bytes};
ghost use Rattle.answers.specs.Outputs.{said_by, said_endpoint, taken_number, target_name, named_at, output_name, sealed_place, sealed_at, output_ech};
ghost use Rattle.answers.specs.Parts.{numbers_bytes, parts_bytes, attempt_bytes};

use machine::calls::Taken;
use machine::grant::{Output, Table};
use machine::wish::Reason;
use numbers::number::{number_len, write_number};
use numbers::put::{has_room, put_bytes};
use numbers::refusal::{Refusal, refusal_number};
use records::endpoints::{Endpoint, Target, rank_number};
use records::names::{Ech, EchPlace, Name, connect_name, name_len};
use records::queries::{Kind, kind_number};

// How many bytes some numbers take.
#[tactic(auto, using(crate::proofs::Joined::length_next, crate::proofs::Joined::numbers_few, crate::proofs::Joined::numbers_none))]
fn numbers_len(numbers: &[u64]) -> usize
    requires { length numbers.now ≤ 8 }
    ensures { result ≡ length (numbers_bytes numbers.now) }
{
    let mut need: usize = 0;
    for &n in numbers {
        need += number_len(n);
    }
    need
}

// Writes numbers that fit, one after the other; the place after the last.
fn write_numbers(out: &mut [u8], at: usize, numbers: &[u64]) -> Result<usize, Refusal>
    requires { at + length (numbers_bytes numbers.now) ≤ length out.old }
    ensures answer { wrote_shown result ≡ placed (at + length (numbers_bytes numbers.now)) }
    ensures bytes { out.new ≡ put_bytes out.old at (numbers_bytes numbers.now) }
{
    let mut p = at;
    for &n in numbers {
        p = write_number(out, p, n)?;
    }
    Ok(p)
}

// Writes numbers, or nothing where they do not fit.
#[tactic(auto, unfolding(numbers::specs::Put::put_answer, numbers::specs::Put::put_bytes))]
fn put_numbers(out: &mut [u8], at: usize, numbers: &[u64]) -> Result<usize, Refusal>
    requires { length numbers.now ≤ 8 }
    ensures answer { wrote_shown result ≡ put_answer out.old at (numbers_bytes numbers.now) }
    ensures bytes { out.new ≡ put_bytes out.old at (numbers_bytes numbers.now) }
{
    let need = numbers_len(numbers);
    if !has_room(out.len(), at, need) {
        return Err(Refusal::NoRoom);
    }
    write_numbers(out, at, numbers)
}

// Writes numbers, bytes, numbers and bytes, or nothing where all do not fit.
fn put_parts(
    out: &mut [u8],
    at: usize,
    head: &[u64],
    body: &[u8],
    tail: &[u64],
    ech: &[u8],
) -> Result<usize, Refusal>
    requires { (length head.now ≤ 8) × (length body.now ≤ 512) × (length tail.now ≤ 8) × (length ech.now ≤ 512) }
    ensures answer { wrote_shown result ≡ put_answer out.old at (parts_bytes head.now body.now tail.now ech.now) }
    ensures bytes { out.new ≡ put_bytes out.old at (parts_bytes head.now body.now tail.now ech.now) }
{
    let first = numbers_len(head);
    let second = numbers_len(tail);
    let need = first + body.len() + second + ech.len();
    if !has_room(out.len(), at, need) {
        return Err(Refusal::NoRoom);
    }
    let a = write_numbers(out, at, head)?;
    let b = put_bytes(out, a, body)?;
    let c = write_numbers(out, b, tail)?;
    put_bytes(out, c, ech)
}

fn bit(b: bool) -> u64
    ensures { result ≡ bit b }
{
    u64::from(b)
}

// The sixteen bytes of an IPv6 address.
#[tactic(auto, using(crate::proofs::Puts::eight_bytes))]
fn sixteen_bytes(hi: u64, lo: u64) -> [u8; 16]
    ensures { result ≡ high_first 8 hi ++ high_first 8 lo }
{
    let mut bytes = [0; 16];
    bytes[..8].copy_from_slice(&hi.to_be_bytes());
    bytes[8..].copy_from_slice(&lo.to_be_bytes());
    bytes
}

// How many ECH bytes there are.
#[tactic(auto, unfolding(records::specs::Names::ech_bytes))]
fn ech_len(ech: Ech) -> usize
    ensures { result ≡ length (ech_bytes ech) }
{
    ech.len.min(512)
}

#[tactic(auto, using(crate::proofs::Puts::name_inside, crate::proofs::Puts::name_taken, crate::proofs::Puts::query_parts))]
fn put_query(
    out: &mut [u8],
    at: usize,
    id: u64,
    kind: Kind,
    stale: bool,
    name: Name,
) -> Result<usize, Refusal>
    ensures answer { wrote_shown result ≡ put_answer out.old at (answer_bytes (query id kind stale (name_bytes name))) }
    ensures bytes { out.new ≡ put_bytes out.old at (answer_bytes (query id kind stale (name_bytes name))) }
{
    let n = name_len(name);
    let head = [1, id, kind_number(kind) as u64, bit(stale), n as u64];
    put_parts(out, at, &head, &name.bytes[..n], &[], &[])
}

fn reason_number(r: Reason) -> u64
    ensures { result ≡ reason_number r }
{
    r as u64
}

fn table_number(t: Table) -> u64
    ensures { result ≡ table_number t }
{
    t as u64
}

// An attempt as an output has it.
#[derive(Clone, Copy)]
struct Attempt {
    id: u64,
    retry: bool,
    endpoint: Endpoint,
}

// An attempt to an endpoint with this host, and with ECH bytes after their number.
fn put_target(
    out: &mut [u8],
    at: usize,
    a: Attempt,
    host: &[u8],
    sealed: u64,
    ech: &[u8],
) -> Result<usize, Refusal>
    requires { (length host.now ≤ 512) × (length ech.now ≤ 512) }
    ensures answer { wrote_shown result ≡ put_answer out.old at (attempt_bytes a.id a.retry a.endpoint host.now sealed ech.now) }
    ensures bytes { out.new ≡ put_bytes out.old at (attempt_bytes a.id a.retry a.endpoint host.now sealed ech.now) }
{
    let id = a.id;
    let again = bit(a.retry);
    let e = a.endpoint;
    let rank = rank_number(e.rank) as u64;
    let port = e.port as u64;
    match e.target {
        Target::V4(x) => {
            let head = [3, id, again, rank, 0];
            let address = x.to_be_bytes();
            let tail = [port, sealed];
            put_parts(out, at, &head, &address, &tail, ech)
        }
        Target::V6(h, l, s) => {
            let head = [3, id, again, rank, 1];
            let address = sixteen_bytes(h, l);
            let scope = s as u64;
            let tail = [scope, port, sealed];
            put_parts(out, at, &head, &address, &tail, ech)
        }
        Target::Named(_) => {
            let head = [3, id, again, rank, 2, host.len() as u64];
            let tail = [port, sealed];
            put_parts(out, at, &head, host, &tail, ech)
        }
    }
}

// The same with the ECH bytes that lie at the endpoint's place, if it has one.
fn put_endpoint(
    out: &mut [u8],
    at: usize,
    a: Attempt,
    host: &[u8],
    ech: &[u8],
) -> Result<usize, Refusal>
    requires { (length host.now ≤ 512) × (length ech.now ≤ 512) }
    ensures answer { wrote_shown result ≡ put_answer out.old at (answer_bytes (attempt a.id a.retry (said_endpoint host.now ech.now a.endpoint))) }
    ensures bytes { out.new ≡ put_bytes out.old at (answer_bytes (attempt a.id a.retry (said_endpoint host.now ech.now a.endpoint))) }
{
    match a.endpoint.ech {
        EchPlace::Without => put_target(out, at, a, host, 0, &[]),
        EchPlace::At(_) => {
            let sealed = ech.len() + 1;
            put_target(out, at, a, host, sealed as u64, ech)
        }
    }
}

// The same by the names that the host comes from.
#[tactic(auto, using(crate::proofs::Puts::name_inside, crate::proofs::Puts::ech_inside))]
fn put_attempt(
    out: &mut [u8],
    at: usize,
    a: Attempt,
    origin: Name,
    own: Name,
    ech: Ech,
) -> Result<usize, Refusal>
    ensures answer { wrote_shown result ≡ put_answer out.old at (answer_bytes (attempt a.id a.retry (said_endpoint (connect_name (name_bytes origin) (name_bytes own)) (ech_bytes ech) a.endpoint))) }
    ensures bytes { out.new ≡ put_bytes out.old at (answer_bytes (attempt a.id a.retry (said_endpoint (connect_name (name_bytes origin) (name_bytes own)) (ech_bytes ech) a.endpoint))) }
{
    let n = name_len(origin);
    let m = name_len(own);
    let k = ech_len(ech);
    let host = connect_name(&origin.bytes[..n], &own.bytes[..m]);
    put_endpoint(out, at, a, host, &ech.bytes[..k])
}

// The answer to a call. `origin` is the origin's name, `name` and `ech` are what lies at the places that the output has.
#[tactic(auto, unfolding(crate::specs::Answers::answer_bytes, crate::specs::Answers::joined, crate::specs::Parts::numbers_bytes))]
pub fn put_output(
    out: &mut [u8],
    at: usize,
    output: Output,
    origin: Name,
    name: Name,
    ech: Ech,
) -> Result<usize, Refusal>
    ensures answer { wrote_shown result ≡ put_answer out.old at (answer_bytes (said_by (name_bytes origin) (name_bytes name) (ech_bytes ech) output)) }
    ensures bytes { out.new ≡ put_bytes out.old at (answer_bytes (said_by (name_bytes origin) (name_bytes name) (ech_bytes ech) output)) }
{
    match output {
        Output::Waiting => put_numbers(out, at, &[0]),
        Output::Query(id, kind, stale, _) => put_query(out, at, id, kind, stale, name),
        Output::Timer(ns) => put_numbers(out, at, &[2, ns]),
        Output::Attempt(id, retry, endpoint) => {
            let a = Attempt {
                id,
                retry,
                endpoint,
            };
            put_attempt(out, at, a, origin, name, ech)
        }
        Output::Cancel(id) => put_numbers(out, at, &[4, id]),
        Output::Succeeded => put_numbers(out, at, &[5]),
        Output::Failed(r) => put_numbers(out, at, &[6, reason_number(r)]),
        Output::Full(t) => put_numbers(out, at, &[7, table_number(t)]),
    }
}

// The number of what became of an input.
fn taken_number(t: Taken) -> u8
    ensures { result ≡ taken_number t }
{
    match t {
        Ok(()) => 0,
        Err(e) => refusal_number(e),
    }
}

// The answer to an input.
#[tactic(auto, unfolding(crate::specs::Answers::answer_bytes, crate::specs::Answers::joined, crate::specs::Parts::numbers_bytes))]
pub fn put_taken(out: &mut [u8], at: usize, t: Taken) -> Result<usize, Refusal>
    ensures answer { wrote_shown result ≡ put_answer out.old at (answer_bytes (input (taken_number t))) }
    ensures bytes { out.new ≡ put_bytes out.old at (answer_bytes (input (taken_number t))) }
{
    put_numbers(out, at, &[8, taken_number(t) as u64])
}

// Here and below 0 stands for no place, and no Option: definitions `output_name` and `output_ech` say so.
fn target_name(t: Target) -> u8
    ensures { result ≡ target_name t }
{
    match t {
        Target::Named(p) => p,
        _ => 0,
    }
}

fn named_at(output: Output) -> u8
    ensures { result ≡ named_at output }
{
    match output {
        Output::Query(_, _, _, p) => p,
        Output::Attempt(_, _, e) => target_name(e.target),
        _ => 0,
    }
}

// The place of the name that an output has, always one of the table; 0 where it has none.
#[tactic(auto, unfolding(crate::specs::Outputs::output_name))]
pub fn output_name(output: Output) -> usize
    ensures { result ≡ output_name output }
{
    let p = named_at(output);
    if p < 14 { p as usize } else { 0 }
}

fn sealed_place(e: EchPlace) -> u8
    ensures { result ≡ sealed_place e }
{
    match e {
        EchPlace::Without => 0,
        EchPlace::At(p) => p,
    }
}

fn sealed_at(output: Output) -> u8
    ensures { result ≡ sealed_at output }
{
    match output {
        Output::Attempt(_, _, e) => sealed_place(e.ech),
        _ => 0,
    }
}

// The same of its ECH bytes.
#[tactic(auto, unfolding(crate::specs::Outputs::output_ech))]
pub fn output_ech(output: Output) -> usize
    ensures { result ≡ output_ech output }
{
    let p = sealed_at(output);
    if p < 40 { p as usize } else { 0 }
}
