#![tactic(auto)]
// When attempts may start: surveys of the records, start rules, gate and timers (document 01, part 5; `move_on_*`).
pub mod pace;
pub mod surveys;
