#![tactic(auto)]
// Interleaving (document 01, part 3), over positions: the caller has the group of each of its endpoints, and gets the order to attempt them in.
ghost use Rattle.std.specs.Prelude.{◌≡◌, true, cond, ◌++◌, ◌+◌, ◌<◌, ◌≤◌, length, take, replicate};
ghost use Rattle.deal.specs.Interleaving.{order};
ghost use Rattle.deal.specs.Answer.{dealing_number, grouped, deal_answer, deal_out};
ghost use Rattle.deal.specs.Queues.{Held, Active, members};

// The longest listing: four services of 48 endpoints, 64 of alternative services and 16 of the origin.
const LONGEST: usize = 272;

// An enum of its own, and no Result: definition `dealing_number` numbers its four cases, and law `one_answer` speaks of them (rule 3.5).
#[derive(Clone, Copy, Debug, PartialEq, Eq)]
pub enum Dealing {
    Dealt,
    // more than 272 groups
    TooLong,
    // the room isn't as long as the list
    OtherRoom,
    // a group above 7
    NoGroup,
}

// Puts each position into the queue of its group: queue g is at g * 272, and counts[g] says how many it holds. False at a group above 7.
#[tactic(auto, using(crate::proofs::Answers::group_small))]
fn fill(groups: &[u8], queues: &mut [u16; 2176], counts: &mut [usize; 8]) -> bool
    requires { (length groups.now ≤ 272) × (counts.old ≡ replicate 8 0) × (length queues.old ≡ 2176) }
    ensures tested { result ≡ grouped groups.now }
    ensures filled { result ≡ true → Held groups.now (length groups.now) queues.new counts.new }
{
    for (i, &group) in groups.iter().enumerate() {
        let g = group as usize;
        if 7 < g {
            return false;
        }
        let c = counts[g];
        queues[g * LONGEST + c] = i as u16;
        counts[g] = c + 1;
    }
    true
}

// The groups that have a member at all, lowest first.
fn first_round(counts: &[usize; 8], active: &mut [usize; 8]) -> usize
    requires { length active.old ≡ 8 }
    ensures { Active counts.now 0 result active.new }
{
    let mut m = 0;
    for g in 0..8 {
        if 0 < counts[g] {
            active[m] = g;
            m += 1;
        }
    }
    m
}

// Deals round r: the r-th member of each of the first m groups in active goes to out, from at on. Keeps those groups that have one more.
fn deal_round(
    queues: &[u16; 2176],
    counts: &[usize; 8],
    active: &mut [usize; 8],
    m: usize,
    r: usize,
    out: &mut [u16],
    at: usize,
) -> usize
    requires { (r < 272) × Active counts.now r m active.old × (at + m ≤ length out.old) }
    ensures next { Active counts.now (r + 1) result active.new }
    ensures dealt { take (at + m) out.new ≡ take at out.old ++ members queues.now r (take m active.old) }
    ensures length { length out.new ≡ length out.old }
{
    let mut k = 0;
    for t in 0..m {
        let g = active[t];
        out[at + t] = queues[g * LONGEST + r];
        if r + 1 < counts[g] {
            active[k] = g;
            k += 1;
        }
    }
    k
}

// Deals round after round, until no group has a member left. False, with nothing dealt, at a group above 7.
fn deal_rounds(groups: &[u8], out: &mut [u16]) -> bool
    requires { (length groups.now ≤ 272) × (length out.old ≡ length groups.now) }
    ensures tested { result ≡ grouped groups.now }
    ensures dealt { out.new ≡ cond result (order groups.now) out.old }
{
    let mut queues = [0u16; 2176];
    let mut counts = [0usize; 8];
    if !fill(groups, &mut queues, &mut counts) {
        return false;
    }
    let mut active = [0usize; 8];
    let mut m = first_round(&counts, &mut active);
    let mut r = 0;
    let mut at = 0;
    // (what a round deals says whether there is another: no range to walk)
    while 0 < m {
        let k = deal_round(&queues, &counts, &mut active, m, r, out, at);
        at += m;
        m = k;
        r += 1;
    }
    true
}

// The positions of groups in dealt order: round after round the next member of each group, lowest group first. Refuses, and leaves out alone, if
// the list is longer than 272, the room has another length or a group is above 7.
pub fn deal(groups: &[u8], out: &mut [u16]) -> Dealing
    ensures answer { dealing_number result ≡ deal_answer groups.now (length out.old) }
    ensures room { out.new ≡ deal_out groups.now out.old }
{
    if LONGEST < groups.len() {
        return Dealing::TooLong;
    }
    if out.len() != groups.len() {
        return Dealing::OtherRoom;
    }
    if deal_rounds(groups, out) {
        Dealing::Dealt
    } else {
        Dealing::NoGroup
    }
}
