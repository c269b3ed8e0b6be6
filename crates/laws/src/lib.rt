// Theorems about the definitions, in specs/; no code.
#![tactic(auto)]
