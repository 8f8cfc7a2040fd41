// A question by code as a free one.
#![tactic(auto)]

ghost use Rattle.std.specs.Prelude.{◌≡◌};
ghost use Rattle.advisory.specs.Catalogue.{rate_of};
ghost use Rattle.advisory.specs.inner.Codes.{InLimits};
ghost use Rattle.question.specs.OneSided.{asked};
ghost use Rattle.coded.specs.Coded.{sense_number, instructed, maintainable, coded_question};

use advisory::{Instruction, Sense, Target, advise};
use question::{OneSidedAdvice, Question, Refusal};

fn sense_number(sense: Sense) -> i64
    ensures { result ≡ sense_number sense }
{
    i64::from(sense as u8)
}

// The target as a number, for an ownship of speed v.
fn target_rate(target: Target, v: i64) -> i64
    ensures { result ≡ rate_of target v }
{
    match target {
        Target::Rate(speed) => speed,
        Target::Current => v,
    }
}

// An instruction as a one-sided advice, for an ownship of speed v. It is no `From`, as the speed and the limit are no part of an instruction.
fn instructed(i: Instruction, v: i64, limit: i64) -> OneSidedAdvice
    requires { InLimits i }
    ensures { asked result ≡ instructed i v limit }
{
    OneSidedAdvice {
        sense: sense_number(i.sense),
        target: target_rate(i.target, v),
        strength: i.strength as i64,
        delay: i.delay as i64,
        limit,
    }
}

// MCL, code 10, is never issued to an aircraft going down, and MDES, code 9, never to one going up.
fn maintainable(code: u8, v: i64) -> bool
    ensures { result ≡ maintainable code v }
{
    ((code != 10) | (0 <= v)) & ((code != 9) | (v <= 0))
}

// A question by code as a free one: refusal 17 for a speed that can't be maintained, 9 for codes that are not judged, 8 for unknown ones.
#[tactic(auto, using(advisory::proofs::Limits::in_limits), unfolding(crate::specs::Coded::coded_question))]
pub fn coded_question(code: u8, v: i64, limit: i64) -> Result<Question, Refusal>
    ensures { result ≡ coded_question code v limit }
{
    let instruction = advise(code)?;
    if !maintainable(code, v) {
        return Err(Refusal::NeverIssued);
    }
    Ok(Question::from(instructed(instruction, v, limit)))
}
