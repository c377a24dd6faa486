#![tactic(auto)]
// Demand 3 (document 01): what holds over every history of a machine. Definitions and laws, no code.
