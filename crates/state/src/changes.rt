// What an event changes: at most one record of each kind, given with its place.
ghost use Rattle.std.specs.Prelude.{◌≡◌};
ghost use Rattle.state.specs.Changes.{first_name, first_ech};

use super::attempts::Attempt;
use records::queries::Query;

// Which of the two HTTPS answers it is: the first, or the one that replaces a stale one.
#[derive(Clone, Copy)]
pub enum Round {
    First,
    Second,
}

// What a call changes.
#[derive(Clone, Copy)]
pub enum CallChange {
    Nothing,
    // a new query record, or the record whose refresh is sent: an id is used
    Asks(usize, Query),
    // a new attempt: an id is used
    Tries(usize, Attempt),
    // an attempt that is cancelled
    Cancels(usize, Attempt),
}

// What an input changes.
#[derive(Clone, Copy)]
pub enum InputChange {
    Nothing,
    // an attempt that ends
    Ends(usize, Attempt),
    // an attempt that ends with an ECH retry, which is number r
    Retries(usize, Attempt, usize),
    // an answer with its addresses
    Holds(usize, Query),
    // an HTTPS answer that failed: no service is held
    Empties(usize, Query),
    // an HTTPS answer with its services
    Offers(usize, Query, Round),
}

// The places of a round's four names and four ECH configurations begin here.
pub fn first_name(r: Round) -> u8
    ensures { result ≡ first_name r }
{
    match r {
        Round::First => 5,
        Round::Second => 9,
    }
}

pub fn first_ech(r: Round) -> u8
    ensures { result ≡ first_ech r }
{
    match r {
        Round::First => 0,
        Round::Second => 4,
    }
}
