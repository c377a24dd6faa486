// Names and ECH bytes: the two tables, and when what lies at two places is the same.
ghost use Rattle.std.specs.Prelude.{◌≡◌, length};
ghost use Rattle.numbers.specs.Names.{undotted};
ghost use Rattle.records.specs.Names.{no_name, no_ech, no_names, no_echs, name_bytes, ech_bytes, name_at, ech_at, host_at, same_bytes, same_name, same_at, connect_name};
ghost use Rattle.records.specs.Classes.{same_names, same_class, class_at};

use super::places::{Places, classes};

// 1 to 253 bytes, with one trailing dot or none; empty where there is none. `Name` and `Ech` are two types, so that neither stands for the
// other; one over a size would save four lines, and each definition of names would say the size.
#[derive(Clone, Copy)]
pub struct Name {
    pub len: usize,
    pub bytes: [u8; 253],
}

// An ECH configuration of at most 512 bytes. Present with length 0 is not the same as none, so presence is told by `EchPlace`.
#[derive(Clone, Copy)]
pub struct Ech {
    pub len: usize,
    pub bytes: [u8; 512],
}

// Places: 0 origin, 1 to 4 alternative services, 5 to 8 targets of the first HTTPS answer, 9 to 12 of its refresh, 13 the HTTPS name with its prefix.
#[derive(Clone, Copy)]
pub struct Names {
    pub list: [Name; 14],
}

// Places: 0 to 3 services of the first HTTPS answer, 4 to 7 of its refresh, 8 + i the retry that came for attempt i.
#[derive(Clone, Copy)]
pub struct Echs {
    pub list: [Ech; 40],
}

// The place of an ECH configuration, or none. An enum of its own, and no Option: its cases stand in what is promised of every endpoint, and
// DECISIONS 14 names it.
#[derive(Clone, Copy)]
pub enum EchPlace {
    Without,
    At(u8),
}

// Which places hold the same name: for each the first such place, and 14 for an empty one. Decisions ask this in place of the bytes.
#[derive(Clone, Copy)]
pub struct SameNames {
    pub list: [u8; 14],
}

#[tactic(auto, unfolding(crate::specs::Names::no_name))]
pub fn no_name() -> Name
    ensures { result ≡ no_name }
{
    Name {
        len: 0,
        bytes: [0; 253],
    }
}

#[tactic(auto, unfolding(crate::specs::Names::no_ech))]
pub fn no_ech() -> Ech
    ensures { result ≡ no_ech }
{
    Ech {
        len: 0,
        bytes: [0; 512],
    }
}

#[tactic(auto, unfolding(crate::specs::Names::no_names))]
pub fn no_names() -> Names
    ensures { result ≡ no_names }
{
    Names {
        list: [no_name(); 14],
    }
}

#[tactic(auto, unfolding(crate::specs::Names::no_echs))]
pub fn no_echs() -> Echs
    ensures { result ≡ no_echs }
{
    Echs {
        list: [no_ech(); 40],
    }
}

impl Name {
    // The bytes within the length, which is cut at the room.
    #[tactic(auto, unfolding(crate::specs::Names::name_bytes), using(crate::proofs::Bytes::cut_take))]
    pub fn as_bytes(&self) -> &[u8]
        ensures { result.now ≡ name_bytes self.now }
    {
        &self.bytes[..self.len.min(253)]
    }
}

impl Ech {
    #[tactic(auto, unfolding(crate::specs::Names::ech_bytes), using(crate::proofs::Bytes::cut_take))]
    pub fn as_bytes(&self) -> &[u8]
        ensures { result.now ≡ ech_bytes self.now }
    {
        &self.bytes[..self.len.min(512)]
    }
}

#[tactic(auto, using(crate::proofs::Bytes::same_pointwise))]
pub fn same_bytes(a: &[u8], b: &[u8]) -> bool
    ensures { result ≡ same_bytes a.now b.now }
{
    a == b
}

// How many bytes a name has.
pub fn name_len(name: Name) -> usize
    ensures { result ≡ length (name_bytes name) }
{
    name.as_bytes().len()
}

#[tactic(auto, unfolding(crate::specs::Names::same_name))]
pub fn same_name(a: Name, b: Name) -> bool
    ensures { result ≡ same_name (name_bytes a) (name_bytes b) }
{
    same_bytes(a.as_bytes(), b.as_bytes())
}

// A name without one trailing dot.
#[tactic(auto, using(crate::proofs::Undots::undotted_by_last))]
fn undot(name: &[u8]) -> &[u8]
    ensures { result.now ≡ undotted name.now }
{
    let n = name.len();
    if n == 0 {
        return name;
    }
    let last = n - 1;
    if name[last] == b'.' {
        return &name[..last];
    }
    name
}

// The host of a by-name endpoint: its own name, or the origin's where it has none, each without one trailing dot.
#[tactic(auto, unfolding(crate::specs::Names::connect_name))]
pub fn connect_name<'a>(origin: &'a [u8], own: &'a [u8]) -> &'a [u8]
    ensures { result.now ≡ connect_name origin.now own.now }
{
    let host = undot(own);
    if host.is_empty() {
        return undot(origin);
    }
    host
}

impl Names {
    // The name's bytes at a place; none outside the table.
    #[tactic(auto, unfolding(crate::specs::Names::name_at, crate::specs::Names::name_bytes, crate::specs::Names::no_name))]
    pub fn bytes_at(&self, place: u8) -> &[u8]
        ensures { result.now ≡ name_bytes (name_at self.now place) }
    {
        match self.list.get(place as usize) {
            Some(name) => name.as_bytes(),
            None => &[],
        }
    }
}

impl Echs {
    #[tactic(auto, unfolding(crate::specs::Names::ech_at, crate::specs::Names::ech_bytes, crate::specs::Names::no_ech))]
    pub fn bytes_at(&self, place: u8) -> &[u8]
        ensures { result.now ≡ ech_bytes (ech_at self.now place) }
    {
        match self.list.get(place as usize) {
            Some(ech) => ech.as_bytes(),
            None => &[],
        }
    }
}

impl Places for Names {
    ghost alike = { same_at };

    #[tactic(auto, unfolding(crate::specs::Names::same_at, crate::specs::Names::same_name), using(crate::proofs::Bytes::same_alike))]
    fn same(&self, p: u8, q: u8) -> bool {
        p == q || same_bytes(self.bytes_at(p), self.bytes_at(q))
    }
}

impl Places for Echs {
    ghost alike = { λ t p q. same_bytes (ech_bytes (ech_at t p)) (ech_bytes (ech_at t q)) };

    #[tactic(auto, using(crate::proofs::Bytes::same_alike))]
    fn same(&self, p: u8, q: u8) -> bool {
        let one = self.bytes_at(p);
        let other = self.bytes_at(q);
        p == q || same_bytes(one, other)
    }
}

// The name at a place; the zero outside the table.
#[tactic(auto, unfolding(crate::specs::Names::name_at))]
pub fn name_at(names: Names, place: u8) -> Name
    ensures { result ≡ name_at names place }
{
    match names.list.get(place as usize) {
        Some(name) => *name,
        None => no_name(),
    }
}

// The ECH bytes at a place; the zero outside the table.
#[tactic(auto, unfolding(crate::specs::Names::ech_at))]
pub fn ech_at(echs: Echs, place: u8) -> Ech
    ensures { result ≡ ech_at echs place }
{
    match echs.list.get(place as usize) {
        Some(ech) => *ech,
        None => no_ech(),
    }
}

// Whether two own names, each with the origin's to fall back on, are one host.
pub fn same_connected(origin: Name, a: Name, b: Name) -> bool
    ensures { result ≡ same_bytes (connect_name (name_bytes origin) (name_bytes a)) (connect_name (name_bytes origin) (name_bytes b)) }
{
    let from = origin.as_bytes();
    same_bytes(
        connect_name(from, a.as_bytes()),
        connect_name(from, b.as_bytes()),
    )
}

// Whether two by-name endpoints connect to one host.
#[tactic(auto, unfolding(crate::specs::Names::host_at))]
pub fn same_host(names: Names, p: u8, q: u8) -> bool
    ensures { result ≡ same_bytes (host_at names p) (host_at names q) }
{
    let origin = names.bytes_at(0);
    same_bytes(
        connect_name(origin, names.bytes_at(p)),
        connect_name(origin, names.bytes_at(q)),
    )
}

pub fn same_ech(a: Ech, b: Ech) -> bool
    ensures { result ≡ same_bytes (ech_bytes a) (ech_bytes b) }
{
    same_bytes(a.as_bytes(), b.as_bytes())
}

// The classes of the table's names.
#[tactic(auto, unfolding(crate::specs::Classes::same_names))]
pub fn same_names(names: Names) -> SameNames
    ensures { result ≡ same_names names }
{
    SameNames {
        list: classes::<Names, 14>(&names),
    }
}

// The class of a place; 14 outside the table.
#[tactic(auto, unfolding(crate::specs::Classes::class_at))]
fn class_at(same: SameNames, place: u8) -> u8
    ensures { result ≡ class_at same place }
{
    match same.list.get(place as usize) {
        Some(class) => *class,
        None => 14,
    }
}

// Whether two places are of one class.
#[tactic(auto, unfolding(crate::specs::Classes::same_class))]
pub fn same_class(same: SameNames, p: u8, q: u8) -> bool
    ensures { result ≡ same_class same p q }
{
    class_at(same, p) == class_at(same, q)
}
