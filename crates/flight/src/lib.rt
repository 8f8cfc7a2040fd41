// A candidate's flight: the types that its definitions (`specs/`) and the code that judges it share. This crate has no functions.
#![tactic(auto)]

// A stretch of a flight: one acceleration, for whole seconds.
#[derive(Clone, Copy)]
pub struct Stretch {
    pub acceleration: i64,
    pub seconds: u64,
}

// A part of a second, in fractions of it: none of it; from x/y to z/y; or from x/y up to its end, which is the next second's. (None is a kind like the others: the
// definitions and `Approach::reaches` have a case for each of the three, where an Option around the other two would have cases within a case.)
#[derive(Clone, Copy)]
pub enum Part {
    Nowhere,
    FromTo(u64, u64, u64),
    From(u64, u64),
}
