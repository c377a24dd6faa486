// Pacing (`connection_attempt_delay`): the delay grows with the attempts in progress, and never wraps.
ghost use Rattle.std.specs.Prelude.{◌≡◌};
ghost use Rattle.pacing.specs.Pacing.{power_of, factor_of, product_of, delay_of};

// m to the n, at most 2^32-1, where 0 counts as 1. From 2 on the 32nd power is past the cap: it isn't worked out, since that divides 32 times.
#[tactic(auto, using(crate::proofs::PowerLaws::power_cut, crate::proofs::PowerLaws::power_of_many))]
fn power(m: u32, n: u64) -> u32
    ensures { result ≡ power_of m n }
{
    if 1 < m && 32 <= n {
        return u32::MAX;
    }
    m.max(1).saturating_pow(n.min(32) as u32)
}

// The factor under a multiplier, with some attempts in progress.
#[tactic(auto, unfolding(crate::specs::Pacing::factor_of))]
pub fn factor(multiplier: u32, in_progress: u64) -> u32
    ensures { result ≡ factor_of multiplier in_progress }
{
    power(multiplier, in_progress.saturating_sub(1))
}

// The delay times the factor, at most 2^64-1.
#[tactic(auto, using(crate::proofs::PowerLaws::product_cut))]
pub fn product(delay: u64, factor: u32) -> u64
    ensures { result ≡ product_of delay factor }
{
    delay.saturating_mul(factor as u64)
}

// The wait before another attempt, with some in progress.
#[tactic(auto, unfolding(crate::specs::Pacing::delay_of))]
pub fn attempt_delay(delay: u64, multiplier: u32, in_progress: u64) -> u64
    ensures { result ≡ delay_of delay multiplier in_progress }
{
    product(delay, factor(multiplier, in_progress))
}
