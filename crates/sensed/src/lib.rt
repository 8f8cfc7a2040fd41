// An accepted question in its sense. `specs/` says what that is.
//
// The question is made inline: called, this and `refusals`' tests cost some 90 instructions a verdict (`compare/bench`).
#![tactic(auto)]

ghost use Rattle.std.specs.Prelude.{◌≡◌};
ghost use Rattle.advisory.specs.Sign.{sign};
ghost use Rattle.sensed.specs.Sensed.{limit_of, sensed_motion, sensed_question};

use advisory::Sense;
use limits::NO_LIMIT;
use path::{SensedQuestion, SizedQuestion};
use question::{AcceptedQuestion, sense_of};
use window::positive_part;

// The intruder's sensed height w × h, and the sensed speeds u, q and that of the upper target.
#[derive(Clone, Copy)]
struct Motion {
    level: i64,
    speed: i64,
    target: i64,
    upper_target: i64,
}

// w: +1 for climb, −1 for descend. It is document 01's factor of heights and speeds; a sense's number in questions is its discriminant.
pub fn sign_of(sense: Sense) -> i64
    ensures { result ≡ sign sense }
{
    match sense {
        Sense::Climb => 1,
        Sense::Descend => -1,
    }
}

fn limit_of(limit: i64) -> Option<u64>
    ensures { result ≡ limit_of limit }
{
    if limit == NO_LIMIT {
        return None;
    }
    Some(positive_part(limit))
}

// The intruder's height and the speeds, in the sense and relative to the intruder's speed.
fn sensed_motion(asked: AcceptedQuestion) -> Motion
    ensures { result ≡ sensed_motion asked.encounter asked.question }
{
    let encounter = asked.encounter;
    let question = asked.question;
    let intruder = encounter.intruder_speed;
    let w = sign_of(sense_of(question));
    Motion {
        level: w * encounter.height,
        speed: w * (encounter.speed - intruder),
        target: w * (question.target - intruder),
        upper_target: w * (question.upper_target - intruder),
    }
}

// An accepted question, with heights and speeds in its sense.
#[inline(always)]
fn in_sense(asked: AcceptedQuestion) -> SensedQuestion
    ensures { result ≡ sensed_question asked.encounter asked.settings asked.question }
{
    let motion = sensed_motion(asked);
    let encounter = asked.encounter;
    let settings = asked.settings;
    let question = asked.question;
    SensedQuestion {
        distance: encounter.distance,
        closing_speed: positive_part(encounter.closing_speed),
        radius: positive_part(settings.radius),
        half_height: positive_part(settings.half_height),
        level: motion.level,
        speed: motion.speed,
        target: motion.target,
        strength: positive_part(question.strength),
        delay: positive_part(question.delay),
        delay_acceleration: positive_part(settings.delay_acceleration),
        upper_target: motion.upper_target,
        upper_strength: question.upper_strength as u64,
        limit: limit_of(question.limit),
    }
}

// The same, which the limits keep small.
#[inline(always)]
pub fn sensed_question(asked: AcceptedQuestion) -> SizedQuestion
    ensures { result.sensed ≡ sensed_question asked.encounter asked.settings asked.question }
{
    SizedQuestion {
        sensed: in_sense(asked),
    }
}
