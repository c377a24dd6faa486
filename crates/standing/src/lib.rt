#![tactic(auto)]
// The standing rules: what holds of the machine at every moment. Definitions and laws, no code.
