// Fields that inputs and the configuration share.
ghost use Rattle.std.specs.Prelude.{◌≤◌, ◌≡◌};
ghost use Rattle.parts.specs.Fields.{versions_of, versions_at, port_of, port_at};
ghost use Rattle.parts.specs.Shown.{shown};

use super::reading::{Reading, field};
use numbers::field::read_at_most;
use numbers::refusal::Refusal;
use records::rules::{Port, Versions};

#[tactic(auto, unfolding(crate::specs::Fields::versions_of))]
fn versions_of(v: u64) -> Versions
    ensures { result ≡ versions_of v }
{
    Versions {
        h3: v % 2 == 1,
        h2: v / 2 % 2 == 1,
        h1: v / 4 % 2 == 1,
    }
}

// A set of versions, 0 to 7.
#[tactic(auto, unfolding(crate::specs::Fields::versions_at, numbers::specs::Fields::at_most))]
pub fn read_versions(s: &[u8], at: usize) -> Reading<Versions>
    ensures { shown result ≡ versions_at s.now at }
{
    let (v, end) = field(at, read_at_most(s, at, 7, Refusal::OutOfRange))?;
    Ok((versions_of(v), end))
}

#[tactic(auto, unfolding(crate::specs::Fields::port_of))]
fn port_of(v: u64) -> Port
    requires { v ≤ 65536 }
    ensures { result ≡ port_of v }
{
    if v == 0 {
        return Port::Origin;
    }
    let p = (v - 1) as u16;
    Port::Own(p)
}

// A port that may be left out.
#[tactic(auto, unfolding(crate::specs::Fields::port_at, numbers::specs::Fields::at_most))]
pub fn read_port(s: &[u8], at: usize) -> Reading<Port>
    ensures { shown result ≡ port_at s.now at }
{
    let (v, end) = field(at, read_at_most(s, at, 65536, Refusal::OutOfRange))?;
    Ok((port_of(v), end))
}
