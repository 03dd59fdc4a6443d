// Document 01 as definitions (specs/) and the theorems about them (proofs/). It has no code.

#![tactic(auto)]
