// A race as a tape runs it: the machine, and the classes of its names and ECH bytes, which are made anew only where these change.
ghost use Rattle.std.specs.Prelude.{◌≡◌, ◌<◌, IfOk, OnErr};
ghost use Rattle.numbers.specs.Put.{put_answer, put_bytes};
ghost use Rattle.numbers.specs.Shown.{wrote_shown};
ghost use Rattle.state.specs.declared.Machine.{Machine};
ghost use Rattle.state.specs.State.{made};
ghost use Rattle.after.specs.After.{put_names, put_echs};
ghost use Rattle.machine.specs.Steps.{turn_of, judged};
ghost use Rattle.offers.specs.Offers.{names_in, echs_in};
ghost use Rattle.bodies.specs.Told.{beside_of};
ghost use Rattle.answers.specs.Answers.{answer_bytes};
ghost use Rattle.replies.specs.Replies.{reply_on, reply_by, after};
ghost use Rattle.replay.specs.Race.{Kept, Proper, query_in, attempt_in, offered_in};
ghost use Rattle.replay.specs.Replay.{step_of};
ghost use Rattle.replay.specs.Saying.{said_in, end_shown};

use after::{is_bare, placed_services, put_retry};
use answers::writer::{output_ech, output_name, put_output, put_taken};
use bodies::{Event, addresses_of, input_of, located_of, read_event, retry_of};
use input::{Input, Verdict, verdict_in};
use machine::calls::survey_of;
use machine::grant::{Turn, grant_of, wish_attempt, wish_query};
use machine::wish::{found_on, wish_of};
use numbers::field::Span;
use numbers::refusal::Refusal;
use parts::reading::Reading;
use parts::room::{ech_of, name_of};
use records::names::{Echs, Names};
use records::queries::{Queries, Query};
use records::rules::{Alts, Rules, Timing};
use records::services::no_services;
use replies::{
    Answer, Change, Reply, Touched, call_reply, event_in, fault_reply, ids_after, input_reply,
    touched_of,
};
use state::attempts::{Attempt, Attempts};
use state::changes::{Round, first_ech, first_name};
use state::{Machine, made};
use std::marker::Model;
use upcoming::alike::Alike;
use upcoming::classes::alike_of;

#[derive(Drop)]
pub struct Race {
    machine: Machine,
    alike: Alike,
}

// Clauses see the machine.
impl Model for Race {
    ghost Value = { Machine };

    ghost view = { λ r. r.machine };

    ghost invariant = { λ r. Kept r.machine r.alike };
}

// A record, or an attempt, at its place in a table that then has n; names and ECH bytes below likewise: the tables are types of their own.
fn put_query(queries: &mut Queries, p: usize, q: Query, n: usize)
    requires { p < 16 }
    ensures { queries.new ≡ query_in queries.old p q n }
{
    queries.list[p] = q;
    queries.count = n;
}

fn put_attempt(attempts: &mut Attempts, p: usize, a: Attempt, n: usize)
    requires { p < 32 }
    ensures { attempts.new ≡ attempt_in attempts.old p a n }
{
    attempts.list[p] = a;
    attempts.count = n;
}

// Four names, and four ECH configurations, from where they stand in a body to the places of a round.
fn put_names(names: &mut Names, round: Round, body: &[u8], spans: [Span; 4])
    ensures { names.new ≡ put_names names.old round (names_in body.now spans) }
{
    let base = first_name(round) as usize;
    names.list[base] = name_of(body, spans[0]);
    names.list[base + 1] = name_of(body, spans[1]);
    names.list[base + 2] = name_of(body, spans[2]);
    names.list[base + 3] = name_of(body, spans[3]);
}

fn put_echs(echs: &mut Echs, round: Round, body: &[u8], spans: [Span; 4])
    ensures { echs.new ≡ put_echs echs.old round (echs_in body.now spans) }
{
    let base = first_ech(round) as usize;
    echs.list[base] = ech_of(body, spans[0]);
    echs.list[base + 1] = ech_of(body, spans[1]);
    echs.list[base + 2] = ech_of(body, spans[2]);
    echs.list[base + 3] = ech_of(body, spans[3]);
}

impl Race {
    // Before the first event.
    pub fn new(rules: Rules, timing: Timing, alts: Alts, given: Names) -> Race
        ensures { result ≡ made rules timing alts given }
    {
        let machine = made(rules, timing, alts, given);
        let alike = alike_of(machine.names, machine.echs);
        Race { machine, alike }
    }

    // What a call is given.
    fn turn(&self, now: u64) -> Turn
        ensures { result ≡ turn_of self.now now }
    {
        let m = &self.machine;
        let seen = survey_of(
            m.rules,
            m.timing,
            m.alts.count,
            m.queries,
            m.services,
            m.attempts,
            m.retries.count,
            now,
        );
        let tries = seen.tries;
        let asks = seen.asks;
        let found = found_on(m, &self.alike, seen.look, asks);
        let w = wish_of(m.rules, m.timing, tries, asks, found, m.attempts.count, now);
        let qp = wish_query(w);
        let tp = wish_attempt(w);
        let q = m.queries.list[qp];
        let a = m.attempts.list[tp];
        grant_of(m.queries.count, m.attempts.count, q, a, m.ids, w, now)
    }

    // What becomes of an input.
    fn judged(&self, now: u64, input: Input) -> Verdict
        ensures { result ≡ judged self.now now input }
    {
        let m = &self.machine;
        verdict_in(
            m.rules.ech,
            &m.queries,
            &m.attempts,
            m.retries.count,
            input,
            now,
        )
    }

    fn reply_on(&self, now: u64, e: Event) -> Reply
        ensures { result ≡ reply_on (turn_of self.now now) (judged self.now now) e }
    {
        match e {
            Event::Call => call_reply(self.turn(now)),
            _ => input_reply(self.judged(now, input_of(e))),
        }
    }

    // What an event is answered, and what it changes; a refused body is no call and changes nothing.
    fn reply(&self, now: u64, read: Reading<Event>) -> Reply
        ensures reply { result ≡ reply_by (turn_of self.now now) (judged self.now now) read }
        ensures proper { Proper result.change }
    {
        // (says the invariant of the machine, on which `proper` rests)
        let _ = &self.machine;
        match read {
            Err(f) => fault_reply(f.refusal),
            Ok((e, _)) => self.reply_on(now, e),
        }
    }

    // An answer's words, with what lies at its places.
    fn put_answer(&self, out: &mut [u8], at: usize, a: Answer) -> Result<usize, Refusal>
        ensures answer { wrote_shown result ≡ put_answer out.old at (answer_bytes (said_in self.now a)) }
        ensures bytes { out.new ≡ put_bytes out.old at (answer_bytes (said_in self.now a)) }
    {
        let m = &self.machine;
        match a {
            Answer::Output(o) => {
                let np = output_name(o);
                let ep = output_ech(o);
                let origin = m.names.list[0];
                let name = m.names.list[np];
                let ech = m.echs.list[ep];
                put_output(out, at, o, origin, name, ech)
            }
            Answer::Input(t) => put_taken(out, at, t),
        }
    }

    // The services that an HTTPS answer brings. Where none came, and its places held nothing, the classes stay.
    fn offer(&mut self, round: Round, body: &[u8], e: Event)
        ensures { self.new ≡ offered_in self.old round (beside_of body.now e) }
    {
        let o = located_of(body, e);
        let still = is_bare(self.machine.names, self.machine.echs, round) && o.services.count == 0;
        self.machine.services = placed_services(o.services, round);
        put_names(&mut self.machine.names, round, body, o.names);
        put_echs(&mut self.machine.echs, round, body, o.echs);
        if !still {
            self.alike = alike_of(self.machine.names, self.machine.echs);
        }
    }

    // What an event changes, each part in its place.
    fn store(&mut self, change: Change, body: &[u8], e: Event)
        requires { Proper change }
        ensures { self.new ≡ after self.old change (beside_of body.now e) }
    {
        let touched = touched_of(
            self.machine.queries.count,
            self.machine.attempts.count,
            change,
        );
        self.machine.ids = ids_after(self.machine.ids, change);
        match touched {
            Touched::Nothing => {}
            Touched::Asked(p, q, n) => put_query(&mut self.machine.queries, p, q, n),
            Touched::Tried(p, a, n) => put_attempt(&mut self.machine.attempts, p, a, n),
            Touched::Answered(p, q, n) => {
                put_query(&mut self.machine.queries, p, q, n);
                self.machine.answers.list[p] = addresses_of(body, e);
            }
            Touched::Emptied(p, q, n) => {
                put_query(&mut self.machine.queries, p, q, n);
                self.machine.services = no_services();
            }
            Touched::Offered(p, q, n, round) => {
                put_query(&mut self.machine.queries, p, q, n);
                self.offer(round, body, e);
            }
            Touched::Retried(p, a, n, r) => {
                put_attempt(&mut self.machine.attempts, p, a, n);
                self.machine.retries = put_retry(self.machine.retries, r, p);
                self.machine.echs.list[8 + p] = retry_of(body, e);
                self.alike = alike_of(self.machine.names, self.machine.echs);
            }
        }
    }

    // An event: its answer stands from the place at on, and what it changes is stored, or neither where the answer doesn't fit. The place
    // after the answer, and 1 for a call.
    pub fn event(
        &mut self,
        now: u64,
        body: &[u8],
        out: &mut [u8],
        at: usize,
    ) -> Result<(usize, usize), Refusal>
        ensures answer { end_shown result ≡ put_answer out.old at (answer_bytes (step_of self.old now body.now).said) }
        ensures bytes { out.new ≡ put_bytes out.old at (answer_bytes (step_of self.old now body.now).said) }
        ensures after { IfOk result (λ p. (p.1 ≡ (step_of self.old now body.now).calls) × (self.new ≡ (step_of self.old now body.now).machine)) }
        ensures kept { OnErr result (self.new ≡ self.old) }
    {
        let read = read_event(body);
        let reply = self.reply(now, read);
        let end = self.put_answer(out, at, reply.answer)?;
        self.store(reply.change, body, event_in(read));
        Ok((end, reply.calls))
    }
}
