// De Casteljau's table and the Bernstein sum: definitions (specs/) and their laws (proofs/). It has no code of its own.
#![tactic(auto)]
