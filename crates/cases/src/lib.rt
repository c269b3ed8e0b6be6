// Document 01's cases and those of requests [2] to [5], computed, in specs/; no code.
#![tactic(auto)]
