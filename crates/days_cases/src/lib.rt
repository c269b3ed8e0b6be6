// Cases of lists of days, computed, in specs/; no code.
#![tactic(auto)]
