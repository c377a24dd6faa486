// Items in a row, of any kind (rule B.5).
ghost use Rattle.std.specs.Prelude.{ℕ, List, ◌≡◌};
ghost use Rattle.parts.specs.Items.{items, past, counted};
ghost use Rattle.parts.specs.Reading as reading;
ghost use Rattle.parts.specs.Shown.{shown, passed_shown};

use super::address::Items;
use super::reading::{Fault, Reading, field};
use numbers::field::read_at_most;
use numbers::refusal::Refusal;

// How an item is read where it stands. No closure: what it asks of its caller would be a `requires` of a public function.
pub trait Kind<T> {
    ghost told: { Self → List ℕ → ℕ → reading.Reading T };

    fn read(&self, s: &[u8], at: usize) -> Reading<T>
        ensures { shown result ≡ told self.now s.now at };
}

// The place after n items.
fn pass<T: Copy, K: Kind<T>>(kind: &K, s: &[u8], at: usize, n: usize) -> Result<usize, Fault>
    ensures { passed_shown result ≡ past (items (K.told kind.now s.now) n at) }
{
    let mut p = at;
    for _i in 0..n {
        let (_, next) = kind.read(s, p)?;
        p = next;
    }
    Ok(p)
}

// A count and so many items.
#[tactic(auto, unfolding(crate::specs::Items::counted))]
pub fn read_row<T: Copy, K: Kind<T>>(kind: &K, s: &[u8], at: usize, most: u64) -> Reading<Items>
    ensures { shown result ≡ counted most (K.told kind.now s.now) s.now at }
{
    let (n, first) = field(at, read_at_most(s, at, most, Refusal::TooMany))?;
    let count = n as usize;
    let end = pass(kind, s, first, count)?;
    Ok((Items { count, first }, end))
}
