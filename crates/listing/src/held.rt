// The addresses that are held for a name.
ghost use Rattle.std.specs.Prelude.{min, ◌≡◌};
ghost use Rattle.records.specs.Classes.{same_class};
ghost use Rattle.listing.specs.Held.{is_for, held_count, held_at};

use super::sources::Sources;
use records::names::same_class;
use records::queries::{Answer, Kind, is_answered};

// A query record and how many addresses it holds.
#[derive(Clone, Copy)]
pub struct Holding {
    pub query: u8,
    pub count: u8,
}

// Whether a record of type k with that answer is an answered one of the kind.
fn is_for(kind: Kind, k: Kind, a: Answer) -> bool
    ensures { result ≡ is_for kind k a }
{
    k == kind && is_answered(a)
}

// A count cut at a size below 256.
pub fn at_most(n: usize, size: u8) -> u8
    ensures { result ≡ min n size }
{
    n.min(size as usize) as u8
}

fn held_count(a: Answer) -> u8
    ensures { result ≡ held_count a }
{
    match a {
        Answer::Pending | Answer::Failed(_) => 0,
        Answer::Held(_, n) => at_most(n, 8),
    }
}

impl Sources {
    // The first answered record of a type and name, and how many addresses it holds.
    pub fn held_at(&self, kind: Kind, place: u8) -> Holding
        ensures { result ≡ held_at (same_class self.now.same) self.now.queries kind place }
    {
        let n = self.queries.count.min(16);
        let asked = &self.queries.list[..n];
        for (i, q) in asked.iter().enumerate() {
            let a = q.answer;
            if is_for(kind, q.kind, a) {
                if same_class(self.same, q.name, place) {
                    return Holding {
                        query: i as u8,
                        count: held_count(a),
                    };
                }
            }
        }
        Holding { query: 0, count: 0 }
    }
}
