// Equation (11) and the area in exact fractions, and how far the rounded values lie from them: definitions and proofs alone, no function.
#![tactic(auto)]
