// What the machine says, in words.
#![tactic(auto)]

pub mod reply;
pub mod words;
