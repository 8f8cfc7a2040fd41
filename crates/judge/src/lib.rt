// The judge of plain numbers. `specs/` says what each answer is.
#![tactic(auto)]

ghost use Rattle.std.specs.Prelude.{◌≡◌};
ghost use Rattle.judge.specs.Answers.{answer, sides_number, answer_record};

use question::{Encounter, Question, Refusal, Settings};
use refusals::accept;
use verdict::{ClearSides, Verdict, verdict_on};

// "1 lower side clear, 2 upper, 3 both"
pub fn sides_number(sides: ClearSides) -> u8
    ensures { result ≡ sides_number sides }
{
    sides as u8
}

// The entry for plain numbers: any 64-bit values. The three are apart, as on a sheet each is set by records of its own, and an encounter and the
// settings outlast the question that is asked of them.
#[tactic(auto, unfolding(crate::specs::Answers::answer))]
pub fn judge(
    encounter: Encounter,
    settings: Settings,
    question: Question,
) -> Result<Verdict, Refusal>
    ensures { result ≡ answer encounter settings question }
{
    let asked = accept(encounter, settings, question)?;
    Ok(verdict_on(asked))
}
