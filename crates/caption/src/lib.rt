// The head of a picture: the origin, what the race came to and when, and what a reader is to be warned of.
#![tactic(auto)]

pub mod heading;
pub mod notice;
pub mod refused;
pub mod title;
pub mod verdict;
