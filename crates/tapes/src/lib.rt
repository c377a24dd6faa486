#![tactic(auto)]
// Whole tapes: what tape check says of replay, where replay stops, what it writes, and that its run is a history. Definitions and laws, no code.
