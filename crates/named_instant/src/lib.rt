// The instant that a candidate names, judged: whether it is in the window, and on each side asked whether it is a conflict time. `specs/` says what each answer is.
#![tactic(auto)]

ghost use Rattle.std.specs.Prelude.{◌≡◌, true};
ghost use Rattle.std.specs.Bool.{then_some};
ghost use Rattle.path.specs.inner.Sizes.{Compared, UpperSizes};
ghost use Rattle.path.specs.declared.Side.TheVariants.{Lower, Upper};
ghost use Rattle.path.specs.inner.Tests.{in_conflict};
ghost use Rattle.sensed.specs.Sensed.{sensed_question};
ghost use Rattle.named_instant.specs.Reach.{value, in_reach};
ghost use Rattle.named_instant.specs.InstantAnswers.{standing, reached_answer, instant_answer};

use conflict::not_beyond;
use instant::{Instant, lowest_terms};
use path::{Side, SideQuestion, SizedQuestion};
use question::{AcceptedQuestion, Encounter, Question, Refusal, Settings, two_sided};
use refusals::accept;
use sensed::sensed_question;
use window::in_window;

// What holds at an instant. One-sided, the upper side is not asked.
#[derive(Clone, Copy)]
pub struct Standing {
    pub in_window: bool,
    pub lower: bool,
    pub upper: Option<bool>,
}

// An instant that is out of the judge's reach, or what holds there.
#[derive(Clone, Copy)]
pub enum InstantAnswer {
    OutOfReach,
    Judged(Standing),
}

const MAX_DIVISOR: u64 = 150_000;

const MAX_NUMERATOR: u64 = 12_060_000;

const MAX_SECOND: u64 = 201_680_060;

// Is the instant, which is in lowest terms, in reach?
fn in_reach(t: Instant) -> bool
    ensures { result ≡ in_reach t }
{
    (0 < t.m) & (t.m <= MAX_DIVISOR) & ((t.n <= MAX_NUMERATOR) | ((t.m == 1) & (t.n <= MAX_SECOND)))
}

// The instant in lowest terms, if it is in reach.
fn reached(t: Instant) -> Option<Instant>
    ensures { result ≡ then_some (in_reach (value t)) (value t) }
{
    let time = lowest_terms(t.n, t.m);
    if MAX_SECOND < time.seconds || MAX_DIVISOR < time.divisor {
        return None;
    }
    let value = Instant {
        n: time.seconds * time.divisor + time.remainder,
        m: time.divisor,
    };
    in_reach(value).then_some(value)
}

// Is the instant, which is in reach, a conflict time on a side?
#[tactic(auto, unfolding(path::specs::inner::Tests::in_conflict))]
fn in_conflict(asked: SideQuestion, t: Instant) -> bool
    requires { in_reach t ≡ true }
    ensures { result ≡ in_conflict asked.side asked.question.sensed t.n t.m }
{
    in_window(asked.question, t) && not_beyond(asked, t)
}

// What holds at an instant in reach.
#[tactic(auto, unfolding(crate::specs::InstantAnswers::standing))]
fn standing_at(asked: AcceptedQuestion, t: Instant) -> Standing
    requires { in_reach t ≡ true }
    ensures { result ≡ standing asked.question (sensed_question asked.encounter asked.settings asked.question) t }
{
    let question = sensed_question(asked);
    let lower = SideQuestion {
        side: Side::Lower,
        question,
    };
    let upper = if two_sided(asked.question) {
        Some(in_conflict(
            SideQuestion {
                side: Side::Upper,
                question,
            },
            t,
        ))
    } else {
        None
    };
    Standing {
        in_window: in_window(question, t),
        lower: in_conflict(lower, t),
        upper,
    }
}

// The entry: any 64-bit values. An instant is judged by its value, so two fractions of one value get one answer.
#[tactic(auto, using(crate::proofs::JudgedByValue::answered_in_reach, crate::proofs::JudgedByValue::answered_out_of_reach), unfolding(crate::specs::InstantAnswers::instant_answer))]
pub fn judge_at(
    encounter: Encounter,
    settings: Settings,
    question: Question,
    instant: Instant,
) -> Result<InstantAnswer, Refusal>
    ensures { result ≡ instant_answer encounter settings question instant }
{
    let asked = accept(encounter, settings, question)?;
    Ok(match reached(instant) {
        Some(value) => InstantAnswer::Judged(standing_at(asked, value)),
        None => InstantAnswer::OutOfReach,
    })
}
