// The article's explicit safe regions, Figures 3 and 5, in whole numbers (`specs/`), and the proofs that each says exactly that no conflict time exists
// (`proofs/RegionTheorem.antt`), and exactly that the judge answers "clear" (`proofs/VerdictRegion.antt`). This crate has no functions.
#![tactic(auto)]
