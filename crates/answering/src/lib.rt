// The state that a sheet keeps, and the reply to each record. `specs/` says what both are.
#![tactic(auto)]

ghost use Rattle.std.specs.Prelude.{◌≡◌, cond, Ok, Err};
ghost use Rattle.std.specs.Option.{option_map, option_map_or, option_and_then};
ghost use Rattle.std.specs.Result.{result_unwrap_or, result_err};
ghost use Rattle.question.specs.declared.refusal.Refusal.TheVariants.{EncounterOutside, PuckOutside, DelayAccelerationOutside};
ghost use Rattle.question.specs.Refusals.{encounter_within, puck_within, delay_acceleration_within};
ghost use Rattle.answering.specs.States.{starting_state, with_settings, with_encounter, state_after};
ghost use Rattle.answering.specs.Replies.{coded_answer, free_answer, reply_to};

use coded::coded_question;
use judge::judge;
use question::{
    Encounter, Question, Refusal, Settings, delay_acceleration_within, encounter_within,
    puck_within,
};
use record::Record;
use verdict::Verdict;

mod instants;
mod meanings;

// What a sheet keeps from record to record: the settings, and the encounter that was accepted last, if any. It goes by value, in and out of each step: a
// refused record's state is then the old one in plain sight, and no step can change it unseen.
#[derive(Clone, Copy)]
pub struct State {
    settings: Settings,
    encounter: Option<Encounter>,
}

impl State {
    // What every sheet starts with.
    pub fn new() -> Self
        ensures { result ≡ starting_state }
    {
        State {
            settings: Settings::new(),
            encounter: None,
        }
    }

    // What a record leaves, and its reply, if it has one. Inlined, with `keep`, so that a walk over records keeps its state at hand (docs/PERFORMANCE.md).
    #[tactic(auto, using(crate::proofs::Kept::kept_state, crate::proofs::Kept::kept_reply), unfolding(crate::specs::States::state_after, crate::specs::Replies::reply_to))]
    #[inline(always)]
    pub fn answer(self, given: Record) -> (State, Option<Result<Verdict, Refusal>>)
        ensures left { result.0 ≡ state_after self given }
        ensures reply { result.1 ≡ reply_to self given }
    {
        match given {
            Record::Encounter(met) => self.keep(self.with_encounter(met)),
            Record::Puck(radius, half_height) => self.keep(self.with_puck(Settings {
                radius,
                half_height,
                ..self.settings
            })),
            Record::DelayAcceleration(delay_acceleration) => {
                self.keep(self.with_delay_acceleration(Settings {
                    delay_acceleration,
                    ..self.settings
                }))
            }
            Record::Coded(code, limit) => (self, Some(self.coded_answer(code, limit))),
            Record::Free(question) => (self, Some(self.free_answer(question))),
        }
    }

    // The same of what `record_at` gives, which is none where the kind is unknown: that leaves the state as it was, and gets no reply.
    pub fn answer_if_known(self, given: Option<Record>) -> (State, Option<Result<Verdict, Refusal>>)
        ensures left { result.0 ≡ option_map_or (state_after self) given self }
        ensures reply { result.1 ≡ option_and_then (reply_to self) given }
    {
        match given {
            None => (self, None),
            Some(record) => self.answer(record),
        }
    }

    // The next state is kept, and gets no answer; of one that is refused the answer says why.
    #[inline(always)]
    fn keep(self, next: Result<State, Refusal>) -> (State, Option<Result<Verdict, Refusal>>)
        ensures left { result.0 ≡ result_unwrap_or next self }
        ensures reply { result.1 ≡ option_map Err (result_err next) }
    {
        match next {
            Ok(state) => (state, None),
            Err(why) => (self, Some(Err(why))),
        }
    }

    // The state with an encounter, or refusal 1.
    fn with_encounter(self, met: Encounter) -> Result<State, Refusal>
        ensures { result ≡ cond (encounter_within met) (Ok (with_encounter self met)) (Err EncounterOutside) }
    {
        if !encounter_within(met) {
            return Err(Refusal::EncounterOutside);
        }
        Ok(State {
            encounter: Some(met),
            ..self
        })
    }

    // The state with a puck, or refusal 2.
    fn with_puck(self, settings: Settings) -> Result<State, Refusal>
        ensures { result ≡ cond (puck_within settings) (Ok (with_settings self settings)) (Err PuckOutside) }
    {
        if !puck_within(settings) {
            return Err(Refusal::PuckOutside);
        }
        Ok(State { settings, ..self })
    }

    // The state with a delay acceleration, or refusal 3. (Beside `with_puck`, as each setting's test and refusal stand together: one function for both would be handed the two apart.)
    fn with_delay_acceleration(self, settings: Settings) -> Result<State, Refusal>
        ensures { result ≡ cond (delay_acceleration_within settings) (Ok (with_settings self settings)) (Err DelayAccelerationOutside) }
    {
        if !delay_acceleration_within(settings) {
            return Err(Refusal::DelayAccelerationOutside);
        }
        Ok(State { settings, ..self })
    }

    #[tactic(auto, unfolding(crate::specs::Replies::coded_answer))]
    fn coded_answer(self, code: u8, limit: i64) -> Result<Verdict, Refusal>
        ensures { result ≡ coded_answer self.encounter self.settings code limit }
    {
        let present = self.encounter.ok_or(Refusal::NoEncounter)?;
        let question = coded_question(code, present.speed, limit)?;
        judge(present, self.settings, question)
    }

    #[tactic(auto, unfolding(crate::specs::Replies::free_answer))]
    fn free_answer(self, question: Question) -> Result<Verdict, Refusal>
        ensures { result ≡ free_answer self.encounter self.settings question }
    {
        let present = self.encounter.ok_or(Refusal::NoEncounter)?;
        judge(present, self.settings, question)
    }
}
