// A one-sided advice, and the question that it asks.

ghost use Rattle.std.specs.Prelude.{◌≡◌};
ghost use Rattle.question.specs.OneSided.{asked};

use crate::Question;

// Sense, target, strength a, delay d, limit. There are no upper fields: what isn't there can't be used, so 16 can't come.
// Sense and limit are plain numbers, as any caller may hand in any: 4 and 6 refuse the others.
#[derive(Clone, Copy)]
pub struct OneSidedAdvice {
    pub sense: i64,
    pub target: i64,
    pub strength: i64,
    pub delay: i64,
    pub limit: i64,
}

impl From<OneSidedAdvice> for Question {
    ghost from_gives = { λ advice question. question ≡ asked advice };

    fn from(advice: OneSidedAdvice) -> Question {
        Question {
            sides: 1,
            sense: advice.sense,
            target: advice.target,
            upper_target: 0,
            strength: advice.strength,
            upper_strength: 0,
            delay: advice.delay,
            limit: advice.limit,
        }
    }
}
