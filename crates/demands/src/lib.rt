// The customer's demands of every entry. Each function only calls an entry, and its contract is what the demands ask of that entry's result: the checker
// proves here that the entry's own contract gives it. `specs/` has the demands in the customer's words; demands that no entry answers stand there with their proofs.
#![tactic(auto)]

ghost use Rattle.std.specs.Prelude.{take, pos, ◌-ℤ◌};
ghost use Rattle.screen.specs.Drawings.{content, upper_content};
ghost use Rattle.question.specs.RefusalNumbers.{with_number};
ghost use Rattle.demands.specs.PlainAnswer.{RightlyAnswered, RightlyExported};
ghost use Rattle.demands.specs.Sheets.{SheetAnswered, outcome_in};
ghost use Rattle.demands.specs.Program.{Written};
ghost use Rattle.demands.specs.Larger.{InRange, LargerOfZero};
ghost use Rattle.demands.specs.Flights.{RightlyFlown, ClearKeepsOut, flight_in};
ghost use Rattle.demands.specs.Meanings.{RightlyExplained};
ghost use Rattle.demands.specs.Instants.{RightlyNamed, AgreesAt, OneAnswer, instant_in};
ghost use Rattle.demands.specs.Codes.{RightlyCoded};
ghost use Rattle.demands.specs.Screen.{RightlyDrawn, RightlyPlaced, UpperRightlyDrawn, UpperRightlyPlaced, content_in, point_in, upper_content_in, upper_point_in};

use binding::{
    DrawingResult, FlightResult, InstantResult, JudgeResult, PointResult, QuestionResult,
    SheetResult, UpperPointResult, answer_sheet_bytes, judge_plain,
};
use candidate::{Flown, OneSidedAdvice};
use conflict::positive_difference;
use instant::Instant;
use judge::judge;
use meaning::{Meaning, explain};
use named_instant::{InstantAnswer, judge_at};
use program::{Output, program_output};
use question::{Encounter, Question, Refusal, Settings};
use screen::{Drawing, ScreenPoint};
use sheet::answer_sheet;
use verdict::Verdict;

// The entry for plain numbers.
#[tactic(auto, using(crate::proofs::PlainAnswers::rightly))]
pub fn judge_demanded(
    encounter: Encounter,
    settings: Settings,
    question: Question,
) -> Result<Verdict, Refusal>
    ensures { RightlyAnswered encounter settings question result }
{
    judge(encounter, settings, question)
}

// The same for C and Rust: the numbers are those of a right answer's record.
#[tactic(auto, using(crate::proofs::Exported::rightly_exported))]
pub fn judge_plain_demanded(
    encounter: Encounter,
    settings: Settings,
    question: Question,
) -> JudgeResult
    ensures { RightlyExported encounter settings question result }
{
    judge_plain(encounter, settings, question)
}

// The question that a code asks, for C and Rust.
#[tactic(auto, using(crate::proofs::CodesAsked::rightly_coded))]
pub fn exported_code_demanded(code: u64, v: i64, limit: i64) -> QuestionResult
    ensures { RightlyCoded code v limit result }
{
    binding::coded_question(code, v, limit)
}

// The entry for sheets.
pub fn answer_sheet_demanded(sheet: &[u8], area: &mut [u8]) -> Result<usize, Refusal>
    ensures { SheetAnswered sheet.now area.old area.new (with_number result) }
{
    answer_sheet(sheet, area)
}

// The same for C and Rust.
pub fn answer_sheet_bytes_demanded(sheet: &[u8], area: &mut [u8]) -> SheetResult
    ensures { SheetAnswered sheet.now area.old area.new (outcome_in result) }
{
    answer_sheet_bytes(sheet, area)
}

// The program's own function.
#[tactic(auto, using(crate::proofs::ProgramWrites::written_by))]
pub fn program_output_demanded(sheet: &[u8]) -> Output
    ensures { Written sheet.now (take result.length result.area) }
{
    program_output(sheet)
}

// The path on the screen: the drawing, and the point of a second.
#[tactic(auto, using(crate::proofs::ScreenRight::rightly_drawn))]
pub fn drawing_demanded(
    encounter: Encounter,
    settings: Settings,
    question: Question,
) -> Result<Drawing, Refusal>
    ensures { RightlyDrawn encounter settings question (with_number (content result)) }
{
    screen::screen_drawing(encounter, settings, question)
}

#[tactic(auto, using(crate::proofs::ScreenRight::rightly_placed))]
pub fn point_demanded(
    encounter: Encounter,
    settings: Settings,
    question: Question,
    second: u64,
) -> Result<ScreenPoint, Refusal>
    ensures { RightlyPlaced encounter settings question second (with_number result) }
{
    screen::screen_point(encounter, settings, question, second)
}

// The same for C and Rust.
#[tactic(auto, using(crate::proofs::ScreenExported::rightly_drawn))]
pub fn exported_drawing_demanded(
    encounter: Encounter,
    settings: Settings,
    question: Question,
) -> DrawingResult
    ensures { RightlyDrawn encounter settings question (content_in result) }
{
    binding::screen_drawing(encounter, settings, question)
}

#[tactic(auto, using(crate::proofs::ScreenExported::rightly_placed))]
pub fn exported_point_demanded(
    encounter: Encounter,
    settings: Settings,
    question: Question,
    second: u64,
) -> PointResult
    ensures { RightlyPlaced encounter settings question second (point_in result) }
{
    binding::screen_point(encounter, settings, question, second)
}

// The upper path on the screen.
#[tactic(auto, using(crate::proofs::ScreenRight::upper_rightly_drawn))]
pub fn upper_drawing_demanded(
    encounter: Encounter,
    settings: Settings,
    question: Question,
) -> Result<Option<Drawing>, Refusal>
    ensures { UpperRightlyDrawn encounter settings question (with_number (upper_content result)) }
{
    screen::upper_drawing(encounter, settings, question)
}

#[tactic(auto, using(crate::proofs::ScreenRight::upper_rightly_placed))]
pub fn upper_point_demanded(
    encounter: Encounter,
    settings: Settings,
    question: Question,
    second: u64,
) -> Result<Option<ScreenPoint>, Refusal>
    ensures { UpperRightlyPlaced encounter settings question second (with_number result) }
{
    screen::upper_point(encounter, settings, question, second)
}

// The same for C and Rust.
#[tactic(auto, using(crate::proofs::ScreenExported::upper_rightly_drawn))]
pub fn exported_upper_drawing_demanded(
    encounter: Encounter,
    settings: Settings,
    question: Question,
) -> DrawingResult
    ensures { UpperRightlyDrawn encounter settings question (upper_content_in result) }
{
    binding::upper_drawing(encounter, settings, question)
}

#[tactic(auto, using(crate::proofs::ScreenExported::upper_rightly_placed))]
pub fn exported_upper_point_demanded(
    encounter: Encounter,
    settings: Settings,
    question: Question,
    second: u64,
) -> UpperPointResult
    ensures { UpperRightlyPlaced encounter settings question second (upper_point_in result) }
{
    binding::upper_point(encounter, settings, question, second)
}

// "Larger of zero and a difference", the line of arithmetic under every verdict. No entry: the verdict and the drawing call it with q and u_d.
pub fn positive_difference_demanded(q: i64, u: i64) -> u64
    requires q_in_range { InRange q }
    requires u_in_range { InRange u }
    ensures { LargerOfZero (q -ℤ u) (pos result) }
{
    positive_difference(q, u)
}

// The entry for a candidate's flight.
#[tactic(auto, using(crate::proofs::FlightsRight::rightly))]
pub fn flight_demanded(
    encounter: Encounter,
    settings: Settings,
    advice: OneSidedAdvice,
    flight: &[i64],
) -> Result<Flown, Refusal>
    ensures { RightlyFlown encounter settings advice flight.now (with_number result) }
{
    candidate::judge_flight(encounter, settings, advice, flight)
}

// The answers to a flight and to the question that its advice asks.
#[derive(Clone, Copy)]
pub struct BothAnswers {
    pub judged: Result<Verdict, Refusal>,
    pub flown: Result<Flown, Refusal>,
}

#[tactic(auto, using(crate::proofs::FlightsRight::kept_out))]
pub fn flight_and_verdict_demanded(
    encounter: Encounter,
    settings: Settings,
    advice: OneSidedAdvice,
    flight: &[i64],
) -> BothAnswers
    ensures { ClearKeepsOut encounter settings advice flight.now result.judged result.flown }
{
    let question = Question::from(advice);
    let judged = judge(encounter, settings, question);
    let flown = candidate::judge_flight(encounter, settings, advice, flight);
    BothAnswers { judged, flown }
}

// The same for C and Rust.
#[tactic(auto, using(crate::proofs::FlightsRight::rightly_exported))]
pub fn exported_flight_demanded(
    encounter: Encounter,
    settings: Settings,
    advice: OneSidedAdvice,
    flight: &[i64],
) -> FlightResult
    ensures { RightlyFlown encounter settings advice flight.now (flight_in result) }
{
    binding::judge_flight(encounter, settings, advice, flight)
}

// The entry for an instant that a candidate names.
#[tactic(auto, using(crate::proofs::InstantsRight::rightly))]
pub fn instant_demanded(
    encounter: Encounter,
    settings: Settings,
    question: Question,
    instant: Instant,
) -> Result<InstantAnswer, Refusal>
    ensures { RightlyNamed encounter settings question instant (with_number result) }
{
    judge_at(encounter, settings, question, instant)
}

// The answers to a question and to an instant that is named for it.
#[derive(Clone, Copy)]
pub struct BothInstants {
    pub judged: Result<Verdict, Refusal>,
    pub named: Result<InstantAnswer, Refusal>,
}

#[tactic(auto, using(crate::proofs::InstantsRight::agrees))]
pub fn instant_and_verdict_demanded(
    encounter: Encounter,
    settings: Settings,
    question: Question,
    instant: Instant,
) -> BothInstants
    ensures { AgreesAt instant result.judged result.named }
{
    let judged = judge(encounter, settings, question);
    let named = judge_at(encounter, settings, question, instant);
    BothInstants { judged, named }
}

// What the verdict means, beside the verdict.
#[tactic(auto, using(crate::proofs::MeaningsRight::rightly_explained))]
pub fn meaning_and_verdict_demanded(
    encounter: Encounter,
    settings: Settings,
    question: Question,
) -> (Result<Verdict, Refusal>, Result<Meaning, Refusal>)
    ensures { RightlyExplained encounter settings question result.0 result.1 }
{
    (
        judge(encounter, settings, question),
        explain(encounter, settings, question),
    )
}

// The answers at two instants.
pub fn two_instants_demanded(
    encounter: Encounter,
    settings: Settings,
    question: Question,
    first: Instant,
    second: Instant,
) -> (
    Result<InstantAnswer, Refusal>,
    Result<InstantAnswer, Refusal>,
)
    ensures { OneAnswer first second result.0 result.1 }
{
    (
        judge_at(encounter, settings, question, first),
        judge_at(encounter, settings, question, second),
    )
}

// The entry for C and Rust.
#[tactic(auto, using(crate::proofs::InstantsRight::rightly_exported))]
pub fn exported_instant_demanded(
    encounter: Encounter,
    settings: Settings,
    question: Question,
    instant: Instant,
) -> InstantResult
    ensures { RightlyNamed encounter settings question instant (instant_in result) }
{
    binding::judge_at(encounter, settings, question, instant)
}
