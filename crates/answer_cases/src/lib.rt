// What the calls for C answer of sections by hand, as the definitions give it: tables (specs/), and the theorems that every case is as its
// table says (proofs/). There is no code here.
#![tactic(auto)]
