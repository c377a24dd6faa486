// Attempts, and the ECH retries that came for them.
ghost use Rattle.std.specs.Prelude.{◌≡◌};
ghost use Rattle.state.specs.State.{no_attempt, no_attempts, no_retries, is_open, has_won, new_attempt, with_state};

use records::endpoints::{Endpoint, no_endpoint};

// `ConnectionState`
#[derive(Clone, Copy)]
pub enum State {
    InProgress,
    Succeeded,
    Failed,
    Cancelled,
}

// An attempt; `retry` says whether it is itself an ECH retry.
#[derive(Clone, Copy)]
pub struct Attempt {
    pub id: u64,
    pub endpoint: Endpoint,
    pub started: u64,
    pub state: State,
    pub retry: bool,
}

#[derive(Clone, Copy)]
pub struct Attempts {
    pub count: usize,
    pub list: [Attempt; 32],
}

// The attempts for which an ECH retry came, by place, in order of arrival. The bytes for attempt i lie at ECH place 8 + i. None is dropped.
#[derive(Clone, Copy)]
pub struct Retries {
    pub count: usize,
    pub list: [u8; 32],
}

pub fn no_attempt() -> Attempt
    ensures { result ≡ no_attempt }
{
    Attempt {
        id: 0,
        endpoint: no_endpoint(),
        started: 0,
        state: State::InProgress,
        retry: false,
    }
}

#[tactic(auto, unfolding(crate::specs::State::no_attempts))]
pub fn no_attempts() -> Attempts
    ensures { result ≡ no_attempts }
{
    Attempts {
        count: 0,
        list: [no_attempt(); 32],
    }
}

#[tactic(auto, unfolding(crate::specs::State::no_retries))]
pub fn no_retries() -> Retries
    ensures { result ≡ no_retries }
{
    Retries {
        count: 0,
        list: [0; 32],
    }
}

pub fn is_open(s: State) -> bool
    ensures { result ≡ is_open s }
{
    matches!(s, State::InProgress)
}

pub fn has_won(s: State) -> bool
    ensures { result ≡ has_won s }
{
    matches!(s, State::Succeeded)
}

// An attempt that begins.
pub fn new_attempt(id: u64, endpoint: Endpoint, now: u64, retry: bool) -> Attempt
    ensures { result ≡ new_attempt id endpoint now retry }
{
    Attempt {
        id,
        endpoint,
        started: now,
        state: State::InProgress,
        retry,
    }
}

// The attempt in another state.
pub fn with_state(a: Attempt, state: State) -> Attempt
    ensures { result ≡ with_state a state }
{
    Attempt { state, ..a }
}
