// What the user was promised, as theorems, in specs/; no code.
#![tactic(auto)]
