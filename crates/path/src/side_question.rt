// A side of a sized question.
ghost use Rattle.std.specs.Prelude.{◌≡◌};
ghost use Rattle.path.specs.declared.Side.TheVariants.{Upper};
ghost use Rattle.path.specs.inner.Sizes.{UpperSizes};

use crate::{Side, SizedQuestion};

// The upper side is asked for only where the upper advice is within the limits too.
#[derive(Clone, Copy)]
pub struct SideQuestion {
    pub side: Side,
    pub question: SizedQuestion,
    pub ghost upper_sizes: { side ≡ Upper → UpperSizes question.sensed },
}
