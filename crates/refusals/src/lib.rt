// Refusals 1 to 6 and 14 to 16: what a question must meet besides the fields' limits, and the tests in their order. The conditions are `question`'s specs/Refusals.antt.
//
// The tests in order are inlined: called, they and `sensed`'s question cost some 90 instructions a verdict (`compare/bench`).
#![tactic(auto)]

ghost use Rattle.std.specs.Prelude.{◌≡◌, IfOk, IfErr, Err, ◌&&◌};
ghost use Rattle.std.specs.Int.Signed.{le_z};
ghost use Rattle.limits.specs.Limits.{strength_within, delay_within};
ghost use Rattle.question.specs.Refusals.{targets_within, strengths_ordered, strengths_within, targets_ordered, upper_target_in_sense, upper_zero, upper_unused, limit_allowed, times_within, question_checks, first_refusal, refusal};

use advisory::Sense;
use limits::{
    MAX_DELAY, MAX_LIMIT, MAX_SPEED, MAX_STRENGTH, MIN_SPEED, MIN_STRENGTH, NO_LIMIT, within,
};
use question::{
    AcceptedQuestion, Encounter, Question, Refusal, Settings, delay_acceleration_within,
    encounter_within, puck_within, sense_of, sides_known, two_sided,
};

// Refusal 5.
fn targets_within(question: Question) -> bool
    ensures { result ≡ targets_within question }
{
    within(MIN_SPEED, MAX_SPEED, question.target)
        & (!two_sided(question) | within(MIN_SPEED, MAX_SPEED, question.upper_target))
}

fn strength_within(strength: i64) -> bool
    ensures { result ≡ strength_within strength }
{
    within(MIN_STRENGTH, MAX_STRENGTH, strength)
}

// Refusal 14: two-sided, the upper strength is no lower than the strength.
fn strengths_within(question: Question) -> bool
    ensures { result ≡ strengths_within question }
{
    strength_within(question.strength)
        & (!two_sided(question)
            | (strength_within(question.upper_strength)
                & (question.strength <= question.upper_strength)))
}

// The upper target is no lower than the target, in the sense.
fn targets_ordered(question: Question) -> bool
    ensures { result ≡ targets_ordered question }
{
    match sense_of(question) {
        Sense::Climb => question.target <= question.upper_target,
        Sense::Descend => question.upper_target <= question.target,
    }
}

// Refusal 15.
fn upper_target_in_sense(question: Question) -> bool
    ensures { result ≡ upper_target_in_sense question }
{
    !two_sided(question) | targets_ordered(question)
}

// Refusal 16.
fn upper_unused(question: Question) -> bool
    ensures { result ≡ upper_unused question }
{
    two_sided(question) | ((question.upper_target == 0) & (question.upper_strength == 0))
}

fn limit_allowed(question: Question) -> bool
    ensures { result ≡ limit_allowed question }
{
    within(0, MAX_LIMIT, question.limit) | (question.limit == NO_LIMIT)
}

// Refusal 6.
fn times_within(question: Question) -> bool
    ensures { result ≡ times_within question }
{
    within(0, MAX_DELAY, question.delay) & limit_allowed(question)
}

// A question's own refusals: 4, 5, 14, 15, 16, 6.
#[inline(always)]
fn check_fields(question: Question) -> Result<(), Refusal>
    ensures { result ≡ first_refusal (question_checks question) }
{
    if !sides_known(question) {
        return Err(Refusal::SidesOrSenseUnknown);
    }
    if !targets_within(question) {
        return Err(Refusal::TargetOutside);
    }
    if !strengths_within(question) {
        return Err(Refusal::StrengthOutside);
    }
    if !upper_target_in_sense(question) {
        return Err(Refusal::UpperTargetBelow);
    }
    if !upper_unused(question) {
        return Err(Refusal::UpperFieldsUsed);
    }
    if !times_within(question) {
        return Err(Refusal::TimesOutside);
    }
    Ok(())
}

// The refusals of plain numbers: 1, 2, 3, then the question's own.
#[tactic(auto, unfolding(question::specs::Refusals::refusal))]
#[inline(always)]
pub fn check_question(
    encounter: Encounter,
    settings: Settings,
    question: Question,
) -> Result<(), Refusal>
    ensures { result ≡ refusal encounter settings question }
{
    if !encounter_within(encounter) {
        return Err(Refusal::EncounterOutside);
    }
    if !puck_within(settings) {
        return Err(Refusal::PuckOutside);
    }
    if !delay_acceleration_within(settings) {
        return Err(Refusal::DelayAccelerationOutside);
    }
    check_fields(question)
}

// A question that no test refuses, as one.
#[inline(always)]
pub fn accept(
    encounter: Encounter,
    settings: Settings,
    question: Question,
) -> Result<AcceptedQuestion, Refusal>
    ensures same { IfOk result (λ asked. (asked.encounter ≡ encounter) × (asked.settings ≡ settings) × (asked.question ≡ question)) }
    ensures refused { IfErr result (λ why. refusal encounter settings question ≡ Err why) }
{
    check_question(encounter, settings, question)?;
    Ok(AcceptedQuestion {
        encounter,
        settings,
        question,
    })
}
