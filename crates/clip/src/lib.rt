// Document 01, modules 3 to 5: index scans, chains, keys and the build as definitions (specs/) with their laws (proofs/). There is no code
// here.
#![tactic(auto)]
