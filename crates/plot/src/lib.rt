// The body of a picture: its scale, and a row for each thing that was asked for.
#![tactic(auto)]

pub mod rows;
pub mod ruler;
