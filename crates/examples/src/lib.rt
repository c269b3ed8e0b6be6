// The promises on small books, computed, in specs/; no code.
#![tactic(auto)]
