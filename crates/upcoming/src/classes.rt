// Hosts and ECH bytes by class, worked out from the tables: bytes are compared here, and nowhere else in a call.
ghost use Rattle.std.specs.Prelude.{◌≡◌};
ghost use Rattle.upcoming.specs.Alike.{same_host_at, same_hosts_of, same_echs_of, alike_of};

use super::alike::{Alike, SameEchs, SameHosts};
use records::names::{Echs, Names, connect_name, same_bytes, same_names};
use records::places::{Places, classes};

// A table of names as hosts: without their trailing dot, the origin's where a name is empty.
#[derive(Drop)]
struct Hosts<'a> {
    names: &'a Names,
}

impl Places for Hosts<'_> {
    ghost alike = { λ h. same_host_at h.names.now };

    // Two empty names have the origin's host: no byte is compared.
    #[tactic(auto, unfolding(crate::specs::Alike::same_host_at, records::specs::Names::host_at), using(crate::proofs::Classed::both_empty))]
    fn same(&self, p: u8, q: u8) -> bool {
        let a = self.names.bytes_at(p);
        let b = self.names.bytes_at(q);
        if a.is_empty() {
            if b.is_empty() {
                return true;
            }
        }
        let origin = self.names.bytes_at(0);
        same_bytes(connect_name(origin, a), connect_name(origin, b))
    }
}

// The classes of hosts. The origin itself stands at place 0, and its class is 14, as outside the table.
#[tactic(auto, unfolding(crate::specs::Alike::same_hosts_of))]
fn same_hosts(names: &Names) -> SameHosts
    ensures { result ≡ same_hosts_of names.now }
{
    SameHosts {
        list: classes::<Hosts, 14>(&Hosts { names }),
    }
}

// The classes of ECH bytes; 40 for none.
#[tactic(auto, unfolding(crate::specs::Alike::same_echs_of, crate::specs::Alike::same_ech_at))]
fn same_echs(echs: &Echs) -> SameEchs
    ensures { result ≡ same_echs_of echs.now }
{
    SameEchs {
        list: classes::<Echs, 40>(echs),
    }
}

// What is the same among names, hosts and ECH bytes.
#[tactic(auto, unfolding(crate::specs::Alike::alike_of))]
pub fn alike_of(names: Names, echs: Echs) -> Alike
    ensures { result ≡ alike_of names echs }
{
    Alike {
        names: same_names(names),
        hosts: same_hosts(&names),
        echs: same_echs(&echs),
    }
}
