// Encounters, settings and questions of plain numbers, and the tests of their fields against document 01's limits. Its letters stand at the fields.
#![tactic(auto)]

ghost use Rattle.std.specs.Prelude.{◌≡◌};
ghost use Rattle.question.specs.StartingSettings.{starting_settings};
ghost use Rattle.question.specs.Refusals.{climbs, sense_of, two_sided, encounter_within, puck_within, delay_acceleration_within, sides_known};

use advisory::Sense;
use limits::{
    MAX_CLOSING_SPEED, MAX_DELAY_ACCELERATION, MAX_DISTANCE, MAX_HALF_HEIGHT, MAX_HEIGHT,
    MAX_RADIUS, MAX_SPEED, MIN_DISTANCE, MIN_HALF_HEIGHT, MIN_HEIGHT, MIN_SPEED, within,
};

pub mod accepted;
pub mod one_sided_advice;
pub mod refusal;

pub use accepted::AcceptedQuestion;
pub use one_sided_advice::OneSidedAdvice;
pub use refusal::Refusal;

// The intruder seen from the ownship: r, h, c, v, vi.
#[derive(Clone, Copy)]
pub struct Encounter {
    pub distance: i64,
    pub height: i64,
    pub closing_speed: i64,
    pub speed: i64,
    pub intruder_speed: i64,
}

// What the person who sets the questions may change: the puck p by k, and the delay acceleration e.
#[derive(Clone, Copy)]
pub struct Settings {
    pub radius: i64,
    pub half_height: i64,
    pub delay_acceleration: i64,
}

impl Settings {
    pub const RADIUS: i64 = 30000;

    pub const HALF_HEIGHT: i64 = 6000;

    pub const DELAY_ACCELERATION: i64 = 966;

    // What every sheet starts with.
    pub fn new() -> Self
        ensures { result ≡ starting_settings }
    {
        Settings {
            radius: Self::RADIUS,
            half_height: Self::HALF_HEIGHT,
            delay_acceleration: Self::DELAY_ACCELERATION,
        }
    }
}

// A free question: sides, sense, target, upper target, a, b, d, limit. Sides, sense and limit are plain numbers, as any caller may hand in any: 4 and 6 refuse the others.
#[derive(Clone, Copy)]
pub struct Question {
    pub sides: i64,
    pub sense: i64,
    pub target: i64,
    pub upper_target: i64,
    pub strength: i64,
    pub upper_strength: i64,
    pub delay: i64,
    pub limit: i64,
}

// The tests are joined by `&`, which doesn't branch: of an accepted encounter each is made in any case.
pub fn encounter_within(encounter: Encounter) -> bool
    ensures { result ≡ encounter_within encounter }
{
    within(MIN_DISTANCE, MAX_DISTANCE, encounter.distance)
        & within(MIN_HEIGHT, MAX_HEIGHT, encounter.height)
        & within(0, MAX_CLOSING_SPEED, encounter.closing_speed)
        & within(MIN_SPEED, MAX_SPEED, encounter.speed)
        & within(MIN_SPEED, MAX_SPEED, encounter.intruder_speed)
}

pub fn puck_within(settings: Settings) -> bool
    ensures { result ≡ puck_within settings }
{
    within(0, MAX_RADIUS, settings.radius)
        & within(MIN_HALF_HEIGHT, MAX_HALF_HEIGHT, settings.half_height)
}

pub fn delay_acceleration_within(settings: Settings) -> bool
    ensures { result ≡ delay_acceleration_within settings }
{
    within(0, MAX_DELAY_ACCELERATION, settings.delay_acceleration)
}

pub fn sides_known(question: Question) -> bool
    ensures { result ≡ sides_known question }
{
    ((question.sides == 1) | (question.sides == 2))
        & ((question.sense == 0) | (question.sense == 1))
}

pub fn two_sided(question: Question) -> bool
    ensures { result ≡ two_sided question }
{
    question.sides == 2
}

// Any number has a sense here, 1 alone climb: an error for the other numbers would refuse a second time what `sides_known` refuses.
pub fn sense_of(question: Question) -> Sense
    ensures { result ≡ sense_of question }
{
    if question.sense == 1 {
        Sense::Climb
    } else {
        Sense::Descend
    }
}
