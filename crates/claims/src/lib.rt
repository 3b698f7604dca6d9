// What is claimed of every session file from end to end: its answers, its printed text, what the host gets of them, and document 01's
// example. Definitions and proofs alone, no function.
#![tactic(auto)]
