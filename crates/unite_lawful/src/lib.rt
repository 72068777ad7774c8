// The union of lawful sources is lawful, and borrows all that it uses: definitions and theorems, no code.
#![tactic(auto)]
