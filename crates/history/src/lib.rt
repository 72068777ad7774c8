// Demand 3 over histories of insertions: definitions and theorems, no code.
#![tactic(auto)]
