// Query records and the addresses of their answers.
ghost use Rattle.std.specs.Prelude.{◌≡◌};
ghost use Rattle.records.specs.Numbers.{kind_number, input_kind};
ghost use Rattle.records.specs.Queries.{no_query, no_queries, no_addr, no_addresses, no_answers, answered, address_at};

// The type of a query record.
#[derive(Clone, Copy, Debug, PartialEq, Eq)]
pub enum Kind {
    Https = 0,
    Aaaa = 1,
    A = 2,
}

// What a query record holds: the moment it came and how many addresses it has. An HTTPS answer has none: its services are counted where they lie.
#[derive(Clone, Copy)]
pub enum Answer {
    Pending,
    Failed(u64),
    Held(u64, usize),
}

// The query that revalidates a stale answer, with its id while it is in flight.
#[derive(Clone, Copy)]
pub enum Refresh {
    Idle,
    InFlight(u64),
    Done,
}

// A query record; its name by place.
#[derive(Clone, Copy)]
pub struct Query {
    pub id: u64,
    pub kind: Kind,
    pub name: u8,
    pub stale: bool,
    pub answer: Answer,
    pub refresh: Refresh,
}

#[derive(Clone, Copy)]
pub struct Queries {
    pub count: usize,
    pub list: [Query; 16],
}

// An IPv6 address in two halves with its scope, 0 for none. An IPv4 address is the low 32 bits of `lo`.
#[derive(Clone, Copy)]
pub struct Addr {
    pub hi: u64,
    pub lo: u64,
    pub scope: u32,
}

#[derive(Clone, Copy)]
pub struct Addresses {
    pub list: [Addr; 8],
}

// The addresses of each query record, at the record's own place.
#[derive(Clone, Copy)]
pub struct Answers {
    pub list: [Addresses; 16],
}

pub fn no_query() -> Query
    ensures { result ≡ no_query }
{
    Query {
        id: 0,
        kind: Kind::Https,
        name: 0,
        stale: false,
        answer: Answer::Pending,
        refresh: Refresh::Idle,
    }
}

#[tactic(auto, unfolding(crate::specs::Queries::no_queries))]
pub fn no_queries() -> Queries
    ensures { result ≡ no_queries }
{
    Queries {
        count: 0,
        list: [no_query(); 16],
    }
}

pub fn no_addr() -> Addr
    ensures { result ≡ no_addr }
{
    Addr {
        hi: 0,
        lo: 0,
        scope: 0,
    }
}

#[tactic(auto, unfolding(crate::specs::Queries::no_addresses))]
pub fn no_addresses() -> Addresses
    ensures { result ≡ no_addresses }
{
    Addresses {
        list: [no_addr(); 8],
    }
}

#[tactic(auto, unfolding(crate::specs::Queries::no_answers))]
pub fn no_answers() -> Answers
    ensures { result ≡ no_answers }
{
    Answers {
        list: [no_addresses(); 16],
    }
}

// A record type in an answer.
pub fn kind_number(k: Kind) -> u8
    ensures { result ≡ kind_number k }
{
    k as u8
}

// The kind of the input that answers a record.
pub fn input_kind(k: Kind) -> u8
    ensures { result ≡ input_kind k }
{
    match k {
        Kind::Aaaa => 1,
        Kind::A => 2,
        Kind::Https => 3,
    }
}

pub fn is_answered(a: Answer) -> bool
    ensures { result ≡ answered a }
{
    !matches!(a, Answer::Pending)
}

// The address at a place of a record's answer; the zero outside the tables.
#[tactic(auto, unfolding(crate::specs::Queries::address_at))]
pub fn address_at(answers: Answers, q: u8, p: u8) -> Addr
    ensures { result ≡ address_at answers q p }
{
    if q < 16 && p < 8 {
        return answers.list[q as usize].list[p as usize];
    }
    no_addr()
}
