#![tactic(auto)]
// Bodies as a host writes them, and what reading them gives. Definitions and laws, no code.
