#![tactic(auto)]
// The machine: what the rules call for, what is given, and the two calls (rules 6.1 to 6.10 and 7.1 to 7.7).
pub mod calls;
pub mod grant;
pub mod wish;
