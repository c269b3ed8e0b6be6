// What is promised of lists of days, as theorems, in specs/; no code.
#![tactic(auto)]
