// The two calls over the whole machine: on one that is lent, and on one that goes in by value and comes back.
ghost use Rattle.std.specs.Prelude.{◌≡◌, get_or};
ghost use Rattle.records.specs.Names.{same_at};
ghost use Rattle.records.specs.Queries.{no_query};
ghost use Rattle.records.specs.Endpoints.{same_endpoint};
ghost use Rattle.state.specs.State.{no_attempt};
ghost use Rattle.machine.specs.Output.{found_by, granted};
ghost use Rattle.machine.specs.Steps.{survey_of, output_step, change_of, taken_of, input_step};

use super::grant::{Output, Turn, grant_of, wish_attempt, wish_query};
use super::wish::{Found, Look, Wish, found_on, look_of, looks, wish_of};
use after::{TargetEchs, TargetNames};
use input::{Input, Verdict, verdict_in};
use numbers::refusal::Refusal;
use pacing::id::IdGenerator;
use records::names::Ech;
use records::queries::{Addresses, Queries, Query, no_query};
use records::rules::{Rules, Timing};
use records::services::Services;
use starting::surveys::{Asks, Tries, asks_of, hints_of, tries_of};
use state::Machine;
use state::attempts::{Attempt, Attempts, no_attempt};
use state::changes::InputChange;
use upcoming::classes::alike_of;

// What comes beside an input: the addresses of an answer of type A or AAAA; the services, names and ECH bytes of an HTTPS answer; the bytes
// of an ECH retry. Zero where the input has none.
#[derive(Clone, Copy)]
pub struct Beside {
    pub addresses: Addresses,
    pub services: Services,
    pub names: TargetNames,
    pub echs: TargetEchs,
    pub retry: Ech,
}

// What a call is answered, and the machine after it.
#[derive(Clone, Copy)]
pub struct OutputStep {
    pub output: Output,
    pub machine: Machine,
}

// Whether an input was accepted.
pub type Taken = Result<(), Refusal>;

#[derive(Clone, Copy)]
pub struct InputStep {
    pub taken: Taken,
    pub machine: Machine,
}

// What a call sees of attempts and records, and what it looks for.
#[derive(Clone, Copy)]
pub struct Survey {
    pub tries: Tries,
    pub asks: Asks,
    pub look: Look,
}

// What is found among the records. The classes of names and ECH bytes are worked out only where something is looked for. The steps by value
// beside this (`survey_of`, `turn_of` and those of wish.rt) are promises that rule 6.1 names.
#[tactic(auto, using(crate::proofs::Looking::looking))]
fn found_in(m: &Machine, look: Look, asks: Asks) -> Found
    ensures { result ≡ found_by (same_at m.now.names) (same_endpoint m.now.names m.now.echs) look asks.asked m.now.rules m.now.alts m.now.queries m.now.answers m.now.services m.now.attempts m.now.retries }
{
    if !looks(look) {
        return Found::Nothing;
    }
    found_on(m, &alike_of(m.names, m.echs), look, asks)
}

// With so many alternative services and retries.
#[tactic(auto, unfolding(crate::specs::Steps::survey_of))]
pub fn survey_of(
    rules: Rules,
    timing: Timing,
    alts: usize,
    queries: Queries,
    services: Services,
    attempts: Attempts,
    retries: usize,
    now: u64,
) -> Survey
    ensures { result ≡ survey_of rules timing alts queries services attempts retries now }
{
    let tries = tries_of(attempts);
    let asks = asks_of(queries);
    let hinted = hints_of(services);
    let look = look_of(
        rules,
        timing,
        tries,
        asks,
        hinted,
        retries,
        services.count,
        alts,
        now,
    );
    Survey { tries, asks, look }
}

fn query_at(queries: Queries, p: usize) -> Query
    ensures { result ≡ get_or queries.list p no_query }
{
    match queries.list.get(p) {
        Some(q) => *q,
        None => no_query(),
    }
}

fn attempt_at(attempts: Attempts, p: usize) -> Attempt
    ensures { result ≡ get_or attempts.list p no_attempt }
{
    match attempts.list.get(p) {
        Some(a) => *a,
        None => no_attempt(),
    }
}

// What is given for a wish.
#[tactic(auto, unfolding(crate::specs::Output::granted))]
pub fn turn_of(queries: Queries, attempts: Attempts, ids: IdGenerator, w: Wish, now: u64) -> Turn
    ensures { result ≡ granted queries attempts ids w now }
{
    let q = query_at(queries, wish_query(w));
    let a = attempt_at(attempts, wish_attempt(w));
    grant_of(queries.count, attempts.count, q, a, ids, w, now)
}

// A call at a moment, on a machine that is lent. It changes ids, query records and attempts at most.
#[tactic(auto, unfolding(crate::specs::Steps::output_step, crate::specs::Steps::turn_of, crate::specs::Output::wish_of), using(crate::proofs::Way::seen))]
pub fn call(m: &mut Machine, now: u64) -> Output
    ensures said { result ≡ (output_step m.old now).output }
    ensures after { m.new ≡ (output_step m.old now).machine }
{
    let seen = survey_of(
        m.rules,
        m.timing,
        m.alts.count,
        m.queries,
        m.services,
        m.attempts,
        m.retries.count,
        now,
    );
    let found = found_in(m, seen.look, seen.asks);
    let w = wish_of(
        m.rules,
        m.timing,
        seen.tries,
        seen.asks,
        found,
        m.attempts.count,
        now,
    );
    let turn = turn_of(m.queries, m.attempts, m.ids, w, now);
    after::call(m, turn.change);
    turn.output
}

// The same call over a machine that goes in by value and comes back.
pub fn process_output(m: Machine, now: u64) -> OutputStep
    ensures { result ≡ output_step m now }
{
    let mut machine = m;
    let output = call(&mut machine, now);
    OutputStep { output, machine }
}

// "A refusal 1 to 12 changes nothing in the machine"
pub fn change_of(v: Verdict) -> InputChange
    ensures { result ≡ change_of v }
{
    match v {
        Ok(c) => c,
        Err(_) => InputChange::Nothing,
    }
}

pub fn taken_of(v: Verdict) -> Taken
    ensures { result ≡ taken_of v }
{
    match v {
        Ok(_) => Ok(()),
        Err(e) => Err(e),
    }
}

// An input at a moment, with what comes beside it, on a machine that is lent.
#[tactic(auto, unfolding(crate::specs::Steps::input_step, crate::specs::Steps::judged))]
pub fn feed(m: &mut Machine, now: u64, input: Input, beside: &Beside) -> Taken
    ensures taken { result ≡ (input_step m.old now input beside.now).taken }
    ensures after { m.new ≡ (input_step m.old now input beside.now).machine }
{
    let verdict = verdict_in(
        m.rules.ech,
        &m.queries,
        &m.attempts,
        m.retries.count,
        input,
        now,
    );
    let change = change_of(verdict);
    after::feed(
        m,
        change,
        &beside.addresses,
        &beside.services,
        &beside.names,
        &beside.echs,
        &beside.retry,
    );
    taken_of(verdict)
}

pub fn process_input(m: Machine, now: u64, input: Input, beside: Beside) -> InputStep
    ensures { result ≡ input_step m now input beside }
{
    let mut machine = m;
    let taken = feed(&mut machine, now, input, &beside);
    InputStep { taken, machine }
}
