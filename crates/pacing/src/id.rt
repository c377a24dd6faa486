// Ids of queries and attempts: rules 1.1 and 1.2.
ghost use Rattle.std.specs.Prelude.{◌≡◌};
ghost use Rattle.pacing.specs.Ids.{first_id, next_id};

#[derive(Clone, Copy)]
pub struct IdGenerator {
    pub next: u64,
}

// An id, and the generator after it.
#[derive(Clone, Copy)]
pub struct Issued {
    pub id: u64,
    pub ids: IdGenerator,
}

impl IdGenerator {
    pub fn new() -> Self
        ensures { result ≡ first_id }
    {
        Self { next: 0 }
    }

    // The next id.
    pub fn take(&mut self) -> u64
        ensures id { result ≡ (next_id self.old).id }
        ensures ids { self.new ≡ (next_id self.old).ids }
    {
        let id = self.next;
        self.next = id.wrapping_add(1);
        id
    }

    // The same by value.
    pub fn next_id(self) -> Issued
        ensures { result ≡ next_id self }
    {
        let mut ids = self;
        let id = ids.take();
        Issued { id, ids }
    }
}
