// What is promised of comma sheets, as cases and as theorems, in specs/; no code.
#![tactic(auto)]
