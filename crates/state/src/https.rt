// (H) The HTTPS name: `_PORT._https.` before the origin (RFC 9460), unless the port is 443.
ghost use Rattle.std.specs.Prelude.{◌+◌, ◌%◌, ◌≡◌, ◌++◌, take};
ghost use Rattle.records.specs.Names.{name_bytes};
ghost use Rattle.state.specs.Https.{decimal, digits_in, prefixed, name_in};

use records::names::{Name, no_name};

// A port in decimal.
#[derive(Clone, Copy)]
pub struct Digits {
    pub count: usize,
    pub list: [u8; 5],
}

impl Digits {
    #[tactic(auto, using(records::proofs::Bytes::cut_take))]
    fn as_bytes(&self) -> &[u8]
        ensures { result.now ≡ take self.now.count self.now.list }
    {
        &self.list[..self.count.min(5)]
    }
}

fn digit(v: u16) -> u8
    ensures { result ≡ 48 + v % 10 }
{
    48 + (v % 10) as u8
}

#[tactic(auto, unfolding(crate::specs::Https::decimal, crate::specs::Https::digits_in, records::specs::Lists::padded))]
fn digits_of(port: u16) -> Digits
    ensures { result ≡ digits_in (decimal 5 port) }
{
    let b = port / 10;
    let c = b / 10;
    let d = c / 10;
    let e = d / 10;
    if port < 10 {
        return Digits {
            count: 1,
            list: [digit(port), 0, 0, 0, 0],
        };
    }
    if b < 10 {
        return Digits {
            count: 2,
            list: [digit(b), digit(port), 0, 0, 0],
        };
    }
    if c < 10 {
        return Digits {
            count: 3,
            list: [digit(c), digit(b), digit(port), 0, 0],
        };
    }
    if d < 10 {
        return Digits {
            count: 4,
            list: [digit(d), digit(c), digit(b), digit(port), 0],
        };
    }
    Digits {
        count: 5,
        list: [digit(e), digit(d), digit(c), digit(b), digit(port)],
    }
}

// Puts the bytes behind those of the name, as far as there is room.
#[tactic(auto, using(crate::proofs::Putting::fits, crate::proofs::Putting::put_in))]
fn push(name: &mut Name, bytes: &[u8])
    requires { name.old ≡ name_in (name_bytes name.old) }
    ensures { name.new ≡ name_in (name_bytes name.old ++ bytes.now) }
{
    let n = bytes.len().min(253 - name.len);
    let end = name.len + n;
    name.bytes[name.len..end].copy_from_slice(&bytes[..n]);
    name.len = end;
}

// `_PORT._https.` and the name. An origin's name has at most 239 bytes, so all of it fits.
pub fn https_name(port: u16, origin: Name) -> Name
    ensures { result ≡ name_in (prefixed port (name_bytes origin)) }
{
    let mut name = no_name();
    push(&mut name, b"_");
    push(&mut name, digits_of(port).as_bytes());
    push(&mut name, b"._https.");
    push(&mut name, origin.as_bytes());
    name
}
