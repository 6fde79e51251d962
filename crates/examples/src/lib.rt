// The papers' examples: the list (specs/) and the one proof that covers it (proofs/). It has no code of its own.
#![tactic(auto)]
