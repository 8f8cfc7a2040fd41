// What holds at an instant for a record that asks.

ghost use Rattle.std.specs.Prelude.{◌≡◌};
ghost use Rattle.answering.specs.InstantReplies.{coded_instant, free_instant, instant_reply};

use crate::State;
use coded::coded_question;
use instant::Instant;
use named_instant::{InstantAnswer, judge_at};
use question::{Question, Refusal};
use record::Record;

impl State {
    // What holds at the instant for the question that a record asks of this state; none where it asks nothing.
    #[tactic(auto, unfolding(crate::specs::InstantReplies::instant_reply))]
    pub fn answer_at(self, given: Record, t: Instant) -> Option<Result<InstantAnswer, Refusal>>
        ensures { result ≡ instant_reply self given t }
    {
        match given {
            Record::Encounter(_) | Record::Puck(_, _) | Record::DelayAcceleration(_) => None,
            Record::Coded(code, limit) => Some(self.coded_at(code, limit, t)),
            Record::Free(question) => Some(self.free_at(question, t)),
        }
    }

    #[tactic(auto, unfolding(crate::specs::InstantReplies::coded_instant))]
    fn coded_at(self, code: u8, limit: i64, t: Instant) -> Result<InstantAnswer, Refusal>
        ensures { result ≡ coded_instant self.encounter self.settings t code limit }
    {
        let present = self.encounter.ok_or(Refusal::NoEncounter)?;
        let question = coded_question(code, present.speed, limit)?;
        judge_at(present, self.settings, question, t)
    }

    #[tactic(auto, unfolding(crate::specs::InstantReplies::free_instant))]
    fn free_at(self, question: Question, t: Instant) -> Result<InstantAnswer, Refusal>
        ensures { result ≡ free_instant self.encounter self.settings t question }
    {
        let present = self.encounter.ok_or(Refusal::NoEncounter)?;
        judge_at(present, self.settings, question, t)
    }
}
