// What reading gives: a value with the place after it, or what is wrong and where.
ghost use Rattle.std.specs.Prelude.{◌≡◌};
ghost use Rattle.numbers.specs.Shown as numbers;
ghost use Rattle.parts.specs.Reading as reading;
ghost use Rattle.parts.specs.Shown.{shown};

use numbers::refusal::Refusal;

// Why a field is refused, and its place.
#[derive(Clone, Copy, Debug, PartialEq, Eq)]
pub struct Fault {
    pub refusal: Refusal,
    pub place: usize,
}

pub type Reading<T> = Result<(T, usize), Fault>;

// A field that stands at the place at.
pub fn field<T>(at: usize, r: Result<(T, usize), Refusal>) -> Reading<T>
    ensures { shown result ≡ reading.field at (numbers.shown r) }
{
    r.map_err(|refusal| Fault { refusal, place: at })
}
