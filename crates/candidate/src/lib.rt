// A candidate's flight, judged. `flight` says what it is to obey and to be inside the puck; `specs/` says what each answer is.
#![tactic(auto)]

ghost use Rattle.std.specs.Prelude.{◌≡◌};
ghost use Rattle.candidate.specs.FlightAnswers.{flight_answer};

use flown::{Flight, first_inside, flight_obeys};
pub use question::OneSidedAdvice;
use question::{Encounter, Question, Refusal, Settings, sense_of};
use refusals::accept;
use sensed::sensed_question;
use stretches::flight_within;

// A flight that is not refused: whether it obeys, and the second in which it is first inside the puck, if it ever is.
#[derive(Clone, Copy)]
pub struct Flown {
    pub obeys: bool,
    pub inside: Option<u64>,
}

// The entry: any 64-bit values, and as many of them as the flight has. 18 comes after the refusals of encounter, puck, e and advice.
#[tactic(auto, using(crate::proofs::RefusedAsAsked::flight_last, sensed::proofs::AcceptedSizes::accepted_sizes), unfolding(crate::specs::FlightAnswers::flight_answer))]
pub fn judge_flight(
    encounter: Encounter,
    settings: Settings,
    advice: OneSidedAdvice,
    flight: &[i64],
) -> Result<Flown, Refusal>
    ensures { result ≡ flight_answer encounter settings advice flight.now }
{
    let accepted = accept(encounter, settings, Question::from(advice))?;
    if !flight_within(flight) {
        return Err(Refusal::FlightOutside);
    }
    let flight = Flight {
        question: sensed_question(accepted),
        sense: sense_of(accepted.question),
        numbers: flight,
    };
    Ok(Flown {
        obeys: flight_obeys(flight),
        inside: first_inside(flight),
    })
}
