// What is promised of a measurement's answer beside its equation: statements (specs/) and their proofs (proofs/).
// It has no code of its own, so that an edit of a promise checks no code again.
#![tactic(auto)]
