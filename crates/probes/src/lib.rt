#![tactic(auto)]
// Entries for the tests alone, which independent Rust programs call from outside (host/, differential/listing/): a module `of_…` for each crate
// that is probed. An entry returns an outcome's number, 0 where nothing is refused, and stores its values into words that the caller lends.
// The other modules read flat numbers and bytes as what the entries need.
mod flat;
pub mod of_deal;
pub mod of_listing;
pub mod of_numbers;
pub mod of_pacing;
pub mod of_records;
mod seven;
mod state;
mod tables;
mod words;
