// What is true of any runs of the strip call, by its contract alone: demand 3, that reached and loose are all, and that an answer is fixed
// (specs/), with the proofs (proofs/). There is no code here.
#![tactic(auto)]
