// Addresses as text.
use std::fmt;

// An IPv4 address, from its 32 bits.
#[derive(Clone, Copy)]
pub struct Four(pub u64);

impl fmt::Display for Four {
    fn fmt<W: fmt::Write>(&self, f: &mut fmt::Formatter<W>) -> fmt::Result {
        let a = self.0;
        write!(
            f,
            "{}.{}.{}.{}",
            a >> 24 & 255,
            a >> 16 & 255,
            a >> 8 & 255,
            a & 255
        )
    }
}

// 64 bits as four groups.
#[derive(Clone, Copy)]
struct Half(u64);

impl fmt::Display for Half {
    fn fmt<W: fmt::Write>(&self, f: &mut fmt::Formatter<W>) -> fmt::Result {
        let a = self.0;
        write!(
            f,
            "{:x}:{:x}:{:x}:{:x}",
            a >> 48 & 0xFFFF,
            a >> 32 & 0xFFFF,
            a >> 16 & 0xFFFF,
            a & 0xFFFF
        )
    }
}

// An IPv6 address from its two halves, as eight groups; a scope that isn't 0 stands after it.
#[derive(Clone, Copy)]
pub struct Six {
    pub hi: u64,
    pub lo: u64,
    pub scope: u32,
}

impl fmt::Display for Six {
    fn fmt<W: fmt::Write>(&self, f: &mut fmt::Formatter<W>) -> fmt::Result {
        write!(f, "{}:{}", Half(self.hi), Half(self.lo))?;
        if self.scope != 0 {
            write!(f, "%{}", self.scope)?;
        }
        Ok(())
    }
}
