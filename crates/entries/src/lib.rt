// What a configuration and a host say, in words.
#![tactic(auto)]

pub mod host;
pub mod setup;
