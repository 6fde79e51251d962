// What is promised of pieces, of exact flags and of the summed reading, over ordinary curves and exact sides: statements (specs/) and their proofs (proofs/).
// It has no code of its own.
#![tactic(auto)]
