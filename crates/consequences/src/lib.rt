// Theorems about whole books and outcomes, in specs/; no code.
#![tactic(auto)]
