// A question that no test of plain numbers refuses.

ghost use Rattle.std.specs.Prelude.{◌≡◌, Ok};
ghost use Rattle.question.specs.Refusals.{refusal};

use crate::{Encounter, Question, Settings};

// With the encounter and the settings that it was accepted for.
#[derive(Clone, Copy)]
pub struct AcceptedQuestion {
    pub encounter: Encounter,
    pub settings: Settings,
    pub question: Question,
    pub ghost accepted: { refusal encounter settings question ≡ Ok tt },
}
