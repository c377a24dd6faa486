#![tactic(auto)]
// Answers in bytes (rule B.9): written whole or not at all.
pub mod writer;
