// Laws of the lower path from one instant n/m of a grid to the next, (n + 1)/m (`proofs/`). This crate has no functions.
#![tactic(auto)]
