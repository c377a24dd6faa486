// Document 01's refusals, 1 to 13.
ghost use Rattle.std.specs.Prelude.{◌≡◌};
ghost use Rattle.numbers.specs.Refusals.{refusal_number};

#[derive(Clone, Copy, Debug, PartialEq, Eq)]
pub enum Refusal {
    Cut = 1,
    BadNumber = 2,
    OutOfRange = 3,
    BadName = 4,
    TooMany = 5,
    Trailing = 6,
    UnknownId = 7,
    AlreadyAnswered = 8,
    WrongType = 9,
    StaleRefresh = 10,
    EchNotSent = 11,
    AlreadyEnded = 12,
    NoRoom = 13,
}

// The refusal's number in document 01's table.
pub fn refusal_number(e: Refusal) -> u8
    ensures { result ≡ refusal_number e }
{
    e as u8
}
