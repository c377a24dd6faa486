// Names: which bytes make one.
ghost use Rattle.std.specs.Prelude.{◌≡◌};
ghost use Rattle.numbers.specs.Names.{between, is_digit, name_byte, name_ok};
ghost use Rattle.numbers.specs.Walk.{digit_of};

#[tactic(auto, unfolding(crate::specs::Names::between))]
fn in_range(lo: u8, hi: u8, b: u8) -> bool
    ensures { result ≡ between lo hi b }
{
    lo <= b && b <= hi
}

#[tactic(auto, unfolding(crate::specs::Names::is_digit))]
fn is_digit(b: u8) -> bool
    ensures { result ≡ is_digit b }
{
    in_range(b'0', b'9', b)
}

#[tactic(auto, unfolding(crate::specs::Names::name_byte, crate::specs::Names::is_digit, crate::specs::Names::between))]
fn name_byte(b: u8) -> bool
    ensures { result ≡ name_byte b }
{
    in_range(b'a', b'z', b) || in_range(b'A', b'Z', b) || is_digit(b) || b == b'-' || b == b'_'
}

// 1 for a digit, 0 for another byte.
#[tactic(auto, unfolding(crate::specs::Walk::digit_of))]
fn digit_count(b: u8) -> usize
    ensures { result ≡ digit_of b }
{
    usize::from(is_digit(b))
}

// Whether the bytes are a name. A label has run bytes so far, digits of them digits: it may be the last exactly if digits < run.
#[tactic(auto, using(crate::proofs::NameLaws::name_end, crate::proofs::NameLaws::name_more, crate::proofs::NameLaws::digit_at_most))]
pub fn name_ok(s: &[u8]) -> bool
    ensures { result ≡ name_ok s.now }
{
    let mut run: usize = 0;
    let mut digits: usize = 0;
    for (i, &b) in s.iter().enumerate() {
        if b == b'.' {
            if i + 1 == s.len() {
                return digits < run;
            }
            if run == 0 {
                return false;
            }
            run = 0;
            digits = 0;
        } else {
            if !name_byte(b) || 63 <= run {
                return false;
            }
            run += 1;
            digits += digit_count(b);
        }
    }
    digits < run
}
