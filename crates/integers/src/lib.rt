// Laws of ℤ and the tactics that prove them: `proofs/Lib.antt` teaches them in order of use. This crate has no functions.
#![tactic(auto)]
