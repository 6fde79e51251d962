// The ledger of a list of calls and the claim about every such list (demand 3): definitions (specs/) and the proof (proofs/).
// It has no code of its own.
#![tactic(auto)]
