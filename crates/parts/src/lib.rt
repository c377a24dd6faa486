#![tactic(auto)]
// What input bodies and the configuration have in common: addresses, items in a row, fields, and bytes copied into their rooms.
// A first pass finds the first fault, or says where things stand; a second copies what stands there.
pub mod address;
pub mod field;
pub mod reading;
pub mod room;
pub mod row;
