// The band between the paths: definitions (`specs/`) and the theorem about the verdict (`proofs/`). This crate has no functions.
#![tactic(auto)]
