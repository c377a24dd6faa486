// A chart as SVG: labels to the left, time to the right, how long each thing took at the right edge.
#![tactic(auto)]

pub mod markup;
pub mod moments;
pub mod page;
pub mod scale;
