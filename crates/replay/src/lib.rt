#![tactic(auto)]
// Tapes: frames, replay, tape check (rules 8.1 to 8.7).
pub mod check;
pub mod frames;
mod race;
pub mod run;
pub mod tape;
