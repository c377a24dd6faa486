// Which places of a table hold the same, by number: decisions ask this in place of the bytes.
ghost use Rattle.std.specs.Prelude.{ℕ, Bool, ◌≡◌, ◌<◌, min};
ghost use Rattle.records.specs.Classes.{class_of, classes_from};
ghost use Rattle.records.specs.Lists.{padded};

// A table whose places are compared. A place outside it is one that holds nothing.
pub trait Places {
    ghost alike: { Self → ℕ → ℕ → Bool };

    fn same(&self, p: u8, q: u8) -> bool
        ensures { result ≡ alike self.now p q };
}

// The class of a place of a table of n: the first place that is the same, and n for what is the same as a place outside.
#[tactic(auto, unfolding(crate::specs::Classes::class_of), using(crate::proofs::Classes::first_here, crate::proofs::Classes::first_next, crate::proofs::Classes::first_end))]
pub fn class_of<T: Places>(table: &T, n: u8, p: u8) -> u8
    ensures { result ≡ class_of n (T.alike table.now) p }
{
    if table.same(n, p) {
        return n;
    }
    for q in 0..n {
        if table.same(q, p) {
            return q;
        }
    }
    n
}

// The classes of a table of N places. One byte tells a place, so what lies past the first 255 is left out, and has 0.
pub fn classes<T: Places, const N: usize>(table: &T) -> [u8; N]
    ensures told { result ≡ padded N 0 (classes_from (min N 255) (T.alike table.now) 0 (min N 255)) }
    ensures all { N < 256 → result ≡ classes_from N (T.alike table.now) 0 N }
{
    let n = N.min(255) as u8;
    let mut list = [0u8; N];
    for p in 0..n {
        list[p as usize] = class_of(table, n, p);
    }
    list
}
