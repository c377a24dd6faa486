#![tactic(auto)]
// Ids, and the pace of attempts.
pub mod delay;
pub mod id;
