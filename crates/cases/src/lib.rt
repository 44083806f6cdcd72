// Document 01, "Sections by hand": the cases marked * as one table, and tables of other cases of 01 and 02 (specs/), with a theorem for
// the tables of each file (proofs/). There is no code here.
#![tactic(auto)]
