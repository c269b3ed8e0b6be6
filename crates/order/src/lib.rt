// Theorems about the order of trades by their stamps, and about the newest lots of trades in any order, in specs/; no code.
#![tactic(auto)]
