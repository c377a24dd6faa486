// Gate and timers. No two moments are ever added.
ghost use Rattle.std.specs.Prelude.{◌≡◌};
ghost use Rattle.starting.specs.Starting.{elapsed, left_of, attempt_delay, attempt_left, resolution_left, resolution_met, some_address, preferred_settled, move_on_without_timeout, move_on_with_timeout, unresolved, may_start};

use super::surveys::{Asks, Hinted, Tries, either};
use records::rules::{Mode, Rules, Timing, is_named, prefers_six, with_https};

// "Elapsed is 0 if the clock went back".
#[tactic(auto, unfolding(crate::specs::Starting::elapsed))]
pub fn elapsed(now: u64, then: u64) -> u64
    ensures { result ≡ elapsed now then }
{
    now.saturating_sub(then)
}

// What is left of a delay since a moment; 0 where it is over or there is no such moment.
fn left_of(delay: u64, since: Option<u64>, now: u64) -> u64
    ensures { result ≡ left_of delay since now }
{
    match since {
        None => 0,
        Some(t) => {
            let e = elapsed(now, t);
            delay.saturating_sub(e)
        }
    }
}

// The wait before another attempt with so many in progress: the one for gate and timer.
#[tactic(auto, unfolding(crate::specs::Starting::attempt_delay))]
pub fn attempt_delay(timing: Timing, active: u64) -> u64
    ensures { result ≡ attempt_delay timing active }
{
    pacing::delay::attempt_delay(timing.delay, timing.multiplier, active)
}

// What is left of it since the latest start in progress. The gate is shut while it isn't 0, and that is the attempt timer.
#[tactic(auto, unfolding(crate::specs::Starting::attempt_left))]
pub fn attempt_left(timing: Timing, tries: Tries, now: u64) -> u64
    ensures { result ≡ attempt_left timing tries now }
{
    let latest = tries.latest;
    let delay = attempt_delay(timing, tries.active);
    left_of(delay, latest, now)
}

// What is left of the resolution delay since the oldest answer, while a record is unanswered.
#[tactic(auto, unfolding(crate::specs::Starting::resolution_left))]
pub fn resolution_left(timing: Timing, asks: Asks, now: u64) -> u64
    ensures { result ≡ resolution_left timing asks now }
{
    let oldest = asks.oldest;
    if !asks.pending {
        return 0;
    }
    left_of(timing.resolution, oldest, now)
}

// "the resolution delay is met at equality", by some answer
#[tactic(auto, unfolding(crate::specs::Starting::elapsed))]
fn is_resolution_met(timing: Timing, oldest: Option<u64>, now: u64) -> bool
    ensures { result ≡ resolution_met timing.resolution oldest now }
{
    match oldest {
        None => false,
        Some(t) => timing.resolution <= elapsed(now, t),
    }
}

// An answer with an address, or a hint of any family.
#[tactic(auto, unfolding(crate::specs::Starting::some_address))]
fn some_address(asks: Asks, hinted: Hinted) -> bool
    ensures { result ≡ some_address asks hinted }
{
    either(asks.address, either(hinted.six, hinted.four))
}

// The preferred type is answered or hinted; `wait_for_preferred_address` off drops this test only.
#[tactic(auto, unfolding(crate::specs::Starting::preferred_settled))]
fn is_preferred_settled(wait: bool, six: bool, asks: Asks, hinted: Hinted) -> bool
    ensures { result ≡ preferred_settled wait six asks hinted }
{
    if !wait {
        return true;
    }
    if six {
        return either(asks.answered.aaaa, hinted.six);
    }
    either(asks.answered.a, hinted.four)
}

// `move_on_without_timeout`, with a named origin
#[tactic(auto, unfolding(crate::specs::Starting::move_on_without_timeout))]
fn move_on_without_timeout(rules: Rules, timing: Timing, asks: Asks, hinted: Hinted) -> bool
    ensures { result ≡ move_on_without_timeout rules timing asks hinted }
{
    let m = rules.mode;
    let p = rules.preference;
    if !asks.answered.https {
        return false;
    }
    if with_https(m) {
        return true;
    }
    if !some_address(asks, hinted) {
        return false;
    }
    is_preferred_settled(timing.wait, prefers_six(p), asks, hinted)
}

// `move_on_with_timeout`
#[tactic(auto, unfolding(crate::specs::Starting::move_on_with_timeout))]
fn move_on_with_timeout(timing: Timing, asks: Asks, hinted: Hinted, now: u64) -> bool
    ensures { result ≡ move_on_with_timeout timing asks hinted now }
{
    let oldest = asks.oldest;
    if !some_address(asks, hinted) {
        return false;
    }
    is_resolution_met(timing, oldest, now)
}

fn is_unresolved(m: Mode) -> bool
    ensures { result ≡ unresolved m }
{
    match m {
        Mode::Name => true,
        Mode::Ip | Mode::NameWithHttpsRr => false,
    }
}

// Whether endpoints may be attempted at all.
#[tactic(auto, unfolding(crate::specs::Starting::may_start))]
pub fn may_start(rules: Rules, timing: Timing, asks: Asks, hinted: Hinted, now: u64) -> bool
    ensures { result ≡ may_start rules timing asks hinted now }
{
    let h = rules.host;
    let m = rules.mode;
    if !is_named(h) {
        return true;
    }
    if is_unresolved(m) {
        return true;
    }
    if move_on_without_timeout(rules, timing, asks, hinted) {
        return true;
    }
    move_on_with_timeout(timing, asks, hinted, now)
}
