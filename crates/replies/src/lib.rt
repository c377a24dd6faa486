#![tactic(auto)]
// What an event is answered and what it changes, from what a call is given or what becomes of an input.
ghost use Rattle.std.specs.Prelude.{◌<◌, ◌≤◌, ◌≡◌};
ghost use Rattle.replies.specs.Replies.{call_reply, input_reply, fault_reply, event_in, is_call};
ghost use Rattle.replies.specs.Replies.{ids_after, touched_of};
ghost use Rattle.replies.specs.declared.Touched as Touched;
ghost use Rattle.after.specs.After.{counted};

use after::ids_called;
use bodies::Event;
use input::Verdict;
use machine::calls::{Taken, change_of, taken_of};
use machine::grant::{Output, Turn};
use numbers::refusal::Refusal;
use pacing::id::IdGenerator;
use parts::reading::Reading;
use records::queries::Query;
use state::attempts::Attempt;
use state::changes::{CallChange, InputChange, Round};

// A call's output, or what became of an input.
#[derive(Clone, Copy)]
pub enum Answer {
    Output(Output),
    Input(Taken),
}

#[derive(Clone, Copy)]
pub enum Change {
    Nothing,
    Called(CallChange),
    Fed(InputChange),
}

#[derive(Clone, Copy)]
pub struct Reply {
    pub answer: Answer,
    // 1 for a call (definition `call_reply`; replay sums it)
    pub calls: usize,
    pub change: Change,
}

// What a change stores beside the ids: nothing; one query record, or one attempt, with its place and how many its table then has; such a
// record with its addresses, with no service held any more, or with the services of a round; such an attempt with the retry that came for it
// and that retry's place.
#[derive(Clone, Copy)]
pub enum Touched {
    Nothing,
    Asked(usize, Query, usize),
    Tried(usize, Attempt, usize),
    Answered(usize, Query, usize),
    Emptied(usize, Query, usize),
    Offered(usize, Query, usize, Round),
    Retried(usize, Attempt, usize, usize),
}

pub fn call_reply(turn: Turn) -> Reply
    ensures { result ≡ call_reply turn }
{
    Reply {
        answer: Answer::Output(turn.output),
        calls: 1,
        change: Change::Called(turn.change),
    }
}

pub fn input_reply(verdict: Verdict) -> Reply
    ensures { result ≡ input_reply verdict }
{
    Reply {
        answer: Answer::Input(taken_of(verdict)),
        calls: 0,
        change: Change::Fed(change_of(verdict)),
    }
}

// A body that is refused inside a sound frame is answered, and is no call.
pub fn fault_reply(e: Refusal) -> Reply
    ensures { result ≡ fault_reply e }
{
    Reply {
        answer: Answer::Input(Err(e)),
        calls: 0,
        change: Change::Nothing,
    }
}

// The event of a body; of a refused one, which has none, a call.
pub fn event_in(read: Reading<Event>) -> Event
    ensures { result ≡ event_in read }
{
    match read {
        Ok((e, _)) => e,
        Err(_) => Event::Call,
    }
}

pub fn is_call(e: Event) -> bool
    ensures { result ≡ is_call e }
{
    matches!(e, Event::Call)
}

pub fn ids_after(ids: IdGenerator, change: Change) -> IdGenerator
    ensures { result ≡ ids_after ids change }
{
    match change {
        Change::Called(c) => ids_called(ids, c),
        Change::Nothing | Change::Fed(_) => ids,
    }
}

// What is stored at place p of a table of n, told with how many it then has. A place outside its room, which no change has, stores nothing.
fn stored<F: FnOnce(usize) -> Touched>(room: usize, n: usize, p: usize, touch: F) -> Touched
    requires small { room ≤ 32 }
    requires callable { F.pre touch (counted n p) }
    ensures inside { p < room → F.post touch (counted n p) result }
    ensures outside { room ≤ p → result ≡ Touched.Nothing }
{
    if room <= p {
        return Touched::Nothing;
    }
    touch(if p < n { n } else { p + 1 })
}

// With so many query records and attempts before.
pub fn touched_of(asked: usize, tried: usize, change: Change) -> Touched
    ensures { result ≡ touched_of asked tried change }
{
    match change {
        Change::Nothing | Change::Called(CallChange::Nothing) | Change::Fed(InputChange::Nothing) =>
            Touched::Nothing,
        Change::Called(CallChange::Asks(p, q)) => {
            stored(16, asked, p, |n| Touched::Asked(p, q, n))
        }
        Change::Called(CallChange::Tries(p, a) | CallChange::Cancels(p, a))
        | Change::Fed(InputChange::Ends(p, a)) => {
            stored(32, tried, p, |n| Touched::Tried(p, a, n))
        }
        Change::Fed(InputChange::Retries(p, a, r)) => {
            stored(32, tried, p, |n| Touched::Retried(p, a, n, r))
        }
        Change::Fed(InputChange::Holds(p, q)) => {
            stored(16, asked, p, |n| Touched::Answered(p, q, n))
        }
        Change::Fed(InputChange::Empties(p, q)) => {
            stored(16, asked, p, |n| Touched::Emptied(p, q, n))
        }
        Change::Fed(InputChange::Offers(p, q, round)) => {
            stored(16, asked, p, |n| Touched::Offered(p, q, n, round))
        }
    }
}
