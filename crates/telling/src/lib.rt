// Text for support staff: pieces, a room in which they stand one after the other, and lines of at most 100 columns.
#![tactic(auto)]

pub mod address;
pub mod lines;
pub mod piece;
pub mod text;
