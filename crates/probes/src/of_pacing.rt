// Entries over `pacing`.
ghost use Rattle.std.specs.Prelude.{◌≡◌};
ghost use Rattle.pacing.specs.Ids.{first_id, next_id};
ghost use Rattle.pacing.specs.Pacing.{factor_of, product_of, delay_of};
ghost use Rattle.probes.specs.Words.{filled, issued_words};

use super::words::put_word;
use pacing::id::IdGenerator;

#[unsafe(no_mangle)]
pub extern "C" fn probe_factor(multiplier: u32, in_progress: u64) -> u32
    ensures { result ≡ factor_of multiplier in_progress }
{
    pacing::delay::factor(multiplier, in_progress)
}

#[unsafe(no_mangle)]
pub extern "C" fn probe_product(delay: u64, factor: u32) -> u64
    ensures { result ≡ product_of delay factor }
{
    pacing::delay::product(delay, factor)
}

#[unsafe(no_mangle)]
pub extern "C" fn probe_attempt_delay(delay: u64, multiplier: u32, in_progress: u64) -> u64
    ensures { result ≡ delay_of delay multiplier in_progress }
{
    pacing::delay::attempt_delay(delay, multiplier, in_progress)
}

// The first id that a generator gives.
#[unsafe(no_mangle)]
pub extern "C" fn probe_first_id() -> u64
    ensures { result ≡ first_id.next }
{
    let ids = IdGenerator::new();
    ids.next
}

// The id that is given where id comes next, and the one that comes next then.
#[tactic(auto, unfolding(crate::specs::Words::filled))]
#[unsafe(no_mangle)]
pub extern "C" fn probe_next_id(id: u64, words: &mut [u64])
    ensures { words.new ≡ filled words.old (issued_words (next_id (record { next = id }))) }
{
    let ids = IdGenerator { next: id };
    let issued = ids.next_id();
    put_word(words, 0, issued.id);
    put_word(words, 1, issued.ids.next);
}
