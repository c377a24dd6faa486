#![tactic(auto)]
// Numbers, names and refusals: what every field of a tape is made of.
pub mod field;
pub mod name;
pub mod number;
pub mod put;
pub mod refusal;
