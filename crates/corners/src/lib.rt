// The marked corners: one statement and its proof, no code.
#![tactic(auto)]
