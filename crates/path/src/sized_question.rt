// A sensed question that is small enough for exact 64-bit code.
ghost use Rattle.std.proofs.Props.{props};
ghost use Rattle.path.specs.inner.Sizes.{Sizes, LimitSize-prop};

use crate::SensedQuestion;

// Its numbers are within document 01's limits.
#[derive(Clone, Copy)]
pub struct SizedQuestion {
    pub sensed: SensedQuestion,
    pub ghost sizes: { Sizes sensed } by { Prim.hlevel (props, LimitSize-prop) },
}
