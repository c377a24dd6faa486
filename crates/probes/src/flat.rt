// Numbers of a list that the caller lends. One outside the list is 0, one outside its range a remainder.
ghost use Rattle.std.specs.Prelude.{◌≡◌, ◌%◌};
ghost use Rattle.probes.specs.Flat.{number_at};

// Number k from base on.
#[tactic(auto, unfolding(crate::specs::Flat::number_at))]
pub fn number(list: &[u64], base: usize, k: usize) -> u64
    ensures { result ≡ number_at list.now base k }
{
    let i = base.wrapping_add(k);
    if i < list.len() {
        return list[i];
    }
    0
}

pub fn size(list: &[u64], base: usize, k: usize) -> usize
    ensures { result ≡ number_at list.now base k }
{
    number(list, base, k) as usize
}

pub fn flag(n: u64) -> bool {
    n % 2 == 1
}

pub fn byte(n: u64) -> u8
    ensures { result ≡ n % 256 }
{
    (n % 256) as u8
}

pub fn half(n: u64) -> u16
    ensures { result ≡ n % 65536 }
{
    (n % 65536) as u16
}

pub fn word(n: u64) -> u32
    ensures { result ≡ n % 4294967296 }
{
    (n % 4294967296) as u32
}
