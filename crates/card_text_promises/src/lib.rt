// What is promised of cards beside the equations of their reader and writer: statements (specs/) and their proofs (proofs/).
// It has no code of its own, so that an edit of a promise checks no code again.
#![tactic(auto)]
