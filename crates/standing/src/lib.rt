// Manifests laid out one behind another in one set of tables: theorems, no code.
#![tactic(auto)]
