// The promises of request [13] are theorems, in specs/. No code.
#![tactic(auto)]
