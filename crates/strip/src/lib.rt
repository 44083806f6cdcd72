// Document 01, module 6: the strip and the strip call as definitions (specs/), and demand 3 about them (proofs/). There is no code here.
#![tactic(auto)]
