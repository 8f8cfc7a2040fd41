// What the verdict on a record that asks means.

ghost use Rattle.std.specs.Prelude.{◌≡◌};
ghost use Rattle.answering.specs.MeaningReplies.{coded_meaning, free_meaning, meaning_reply};

use crate::State;
use coded::coded_question;
use meaning::{Meaning, explain};
use question::{Question, Refusal};
use record::Record;

impl State {
    // What the verdict means on the question that a record asks of this state; none where it asks nothing.
    #[tactic(auto, unfolding(crate::specs::MeaningReplies::meaning_reply))]
    pub fn explain(self, given: Record) -> Option<Result<Meaning, Refusal>>
        ensures { result ≡ meaning_reply self given }
    {
        match given {
            Record::Encounter(_) | Record::Puck(_, _) | Record::DelayAcceleration(_) => None,
            Record::Coded(code, limit) => Some(self.explain_coded(code, limit)),
            Record::Free(question) => Some(self.explain_free(question)),
        }
    }

    #[tactic(auto, unfolding(crate::specs::MeaningReplies::coded_meaning))]
    fn explain_coded(self, code: u8, limit: i64) -> Result<Meaning, Refusal>
        ensures { result ≡ coded_meaning self.encounter self.settings code limit }
    {
        let present = self.encounter.ok_or(Refusal::NoEncounter)?;
        let question = coded_question(code, present.speed, limit)?;
        explain(present, self.settings, question)
    }

    #[tactic(auto, unfolding(crate::specs::MeaningReplies::free_meaning))]
    fn explain_free(self, question: Question) -> Result<Meaning, Refusal>
        ensures { result ≡ free_meaning self.encounter self.settings question }
    {
        let present = self.encounter.ok_or(Refusal::NoEncounter)?;
        explain(present, self.settings, question)
    }
}
