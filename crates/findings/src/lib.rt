// R-7's claims over every list of events: definitions and proofs alone, no function.
#![tactic(auto)]
