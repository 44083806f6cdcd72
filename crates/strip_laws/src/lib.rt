// No code: theorems about strips that the builder writes and strips that are read back (specs/Built.antt).
#![tactic(auto)]
