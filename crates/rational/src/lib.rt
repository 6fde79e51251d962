// Whole-number rounding and fractions: definitions (specs/) and their laws (proofs/). It has no code of its own.
#![tactic(auto)]
