// The calls from outside as their callers see them: curves and results as numbers, refusals as answers, and what is left in what was lent:
// definitions (specs/) and what is promised of them (proofs/). The code is in `foreign`; it has none of its own, so that an edit checks no code again.
#![tactic(auto)]
