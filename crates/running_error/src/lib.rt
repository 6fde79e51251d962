// The sum of steps of a curve's record is true: the claim about every curve that is reached from one whose sum is 0, with its corollary for cards (specs/), and their proofs (proofs/).
// It has no code of its own.
#![tactic(auto)]
