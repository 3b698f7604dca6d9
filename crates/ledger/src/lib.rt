// The exact ledger and demand 3 over the engine: definitions and proofs alone, no function.
#![tactic(auto)]
