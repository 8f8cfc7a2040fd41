// The judge's entries with results as structs of numbers, and each such struct as it is made of an answer (`From`). `binding_c` exports them to C and Rust, where a question's
// numbers pass as themselves.
#![tactic(auto)]

ghost use Rattle.std.specs.Prelude.{◌≡◌, length, Err};
ghost use Rattle.judge.specs.Answers.{answer};
ghost use Rattle.sheet.specs.WholeSheet.{outcome, area_after};
ghost use Rattle.candidate.specs.FlightAnswers.{yes_number, flight_answer};
ghost use Rattle.binding.specs.PlainNumbers.{plain_encounter, plain_settings, plain_question, plain_advice};
ghost use Rattle.screen.specs.Drawings.{pieces_of, content, upper_content, screen_drawing, upper_drawing};
ghost use Rattle.screen.specs.Points.{screen_point, upper_point};
ghost use Rattle.coded.specs.Coded.{coded_question};
ghost use Rattle.binding.specs.Flat.{with_times, flat_verdict, flat_answer, flat_outcome};
ghost use Rattle.binding.specs.Flight.{flat_entry, flat_flight};
ghost use Rattle.binding.specs.Instants.{side_number, flat_instant};
ghost use Rattle.named_instant.specs.InstantAnswers.{instant_answer};
ghost use Rattle.binding.specs.Screen.{no_piece, flat_piece, flat_pieces, flat_content, flat_upper_content, flat_point, flat_upper_point};
ghost use Rattle.binding.specs.Coded.{flat_question};

use candidate::{Flown, OneSidedAdvice};
use instant::{Instant, Time};
use judge::{judge, sides_number};
use named_instant::InstantAnswer;
use question::{Encounter, Question, Refusal, Settings};
use screen::{Drawing, DrawnPiece, Piece, ScreenPoint};
use sheet::answer_sheet;
use verdict::Verdict;

// An answer record's kind and numbers; fields that the kind does not use are 0.
#[repr(C)]
#[derive(Clone, Copy, PartialEq, Eq)]
pub struct JudgeResult {
    // 65, 66, 67 or 68.
    pub kind: u64,
    // The sides of a clear answer, or the refusal's number.
    pub number: u64,
    pub lower_seconds: u64,
    pub lower_remainder: u64,
    pub lower_divisor: u64,
    pub upper_seconds: u64,
    pub upper_remainder: u64,
    pub upper_divisor: u64,
}

// (No `From`: a kind, a number and two times are no type of their own, and one made for them would have these fields once more.)
fn with_times(kind: u64, number: u64, lower: Time, upper: Time) -> JudgeResult
    ensures { result ≡ with_times kind number lower upper }
{
    JudgeResult {
        kind,
        number,
        lower_seconds: lower.seconds,
        lower_remainder: lower.remainder,
        lower_divisor: lower.divisor,
        upper_seconds: upper.seconds,
        upper_remainder: upper.remainder,
        upper_divisor: upper.divisor,
    }
}

impl From<Verdict> for JudgeResult {
    ghost from_gives = { λ verdict flat. flat ≡ flat_verdict verdict };

    fn from(verdict: Verdict) -> JudgeResult {
        match verdict {
            Verdict::Clear(sides) => with_times(
                65,
                u64::from(sides_number(sides)),
                Time::default(),
                Time::default(),
            ),
            Verdict::Conflict(t) => with_times(66, 0, t, Time::default()),
            Verdict::Conflicts(t, u) => with_times(67, 0, t, u),
        }
    }
}

impl From<Result<Verdict, Refusal>> for JudgeResult {
    ghost from_gives = { λ answer flat. flat ≡ flat_answer answer };

    fn from(answer: Result<Verdict, Refusal>) -> JudgeResult {
        match answer {
            Ok(verdict) => JudgeResult::from(verdict),
            Err(why) => with_times(
                68,
                u64::from(why.number()),
                Time::default(),
                Time::default(),
            ),
        }
    }
}

// A question's sixteen numbers and an advice's five, as C and Rust pass them.
pub fn plain_encounter(r: i64, h: i64, c: i64, v: i64, vi: i64) -> Encounter
    ensures { result ≡ plain_encounter r h c v vi }
{
    Encounter {
        distance: r,
        height: h,
        closing_speed: c,
        speed: v,
        intruder_speed: vi,
    }
}

pub fn plain_settings(p: i64, k: i64, e: i64) -> Settings
    ensures { result ≡ plain_settings p k e }
{
    Settings {
        radius: p,
        half_height: k,
        delay_acceleration: e,
    }
}

pub fn plain_question(
    sides: i64,
    sense: i64,
    target: i64,
    upper_target: i64,
    strength: i64,
    upper_strength: i64,
    delay: i64,
    limit: i64,
) -> Question
    ensures { result ≡ plain_question sides sense target upper_target strength upper_strength delay limit }
{
    Question {
        sides,
        sense,
        target,
        upper_target,
        strength,
        upper_strength,
        delay,
        limit,
    }
}

pub fn plain_advice(
    sense: i64,
    target: i64,
    strength: i64,
    delay: i64,
    limit: i64,
) -> OneSidedAdvice
    ensures { result ≡ plain_advice sense target strength delay limit }
{
    OneSidedAdvice {
        sense,
        target,
        strength,
        delay,
        limit,
    }
}

// Judges a question, any 64-bit values.
pub fn judge_plain(encounter: Encounter, settings: Settings, question: Question) -> JudgeResult
    ensures { result ≡ flat_answer (answer encounter settings question) }
{
    JudgeResult::from(judge(encounter, settings, question))
}

// Of an accepted sheet the answer's length, and refusal 0; of a refused one the number, and length 0.
#[repr(C)]
#[derive(Clone, Copy)]
pub struct SheetResult {
    pub refusal: u64,
    pub length: u64,
}

impl From<Result<usize, Refusal>> for SheetResult {
    ghost from_gives = { λ outcome flat. flat ≡ flat_outcome outcome };

    fn from(outcome: Result<usize, Refusal>) -> SheetResult {
        match outcome {
            Ok(written) => SheetResult {
                refusal: 0,
                length: written as u64,
            },
            Err(why) => SheetResult {
                refusal: u64::from(why.number()),
                length: 0,
            },
        }
    }
}

// Answers any sheet into any area.
pub fn answer_sheet_bytes(sheet: &[u8], area: &mut [u8]) -> SheetResult
    ensures { (result ≡ flat_outcome (outcome sheet.now (length area.old))) × (area.new ≡ area_after sheet.now area.old) }
{
    SheetResult::from(answer_sheet(sheet, area))
}

// A piece, the time from which it holds, and its coefficients of t², t and 1; a straight's first is 0.
#[repr(C)]
#[derive(Clone, Copy, Default)]
pub struct PieceResult {
    // 1 for a straight, 2 for an arc, 0 where there is no piece.
    pub kind: u64,
    pub seconds: u64,
    pub remainder: u64,
    pub divisor: u64,
    pub square: f64,
    pub linear: f64,
    pub constant: f64,
}

// Of a drawn path refusal 0 and its one to three pieces in time's order; of an upper path that is not asked for no piece; of a refused question the number, and no
// piece. What is not used is 0.
#[repr(C)]
#[derive(Clone, Copy, Default)]
pub struct DrawingResult {
    pub refusal: u64,
    pub pieces: u64,
    pub first: PieceResult,
    pub second: PieceResult,
    pub third: PieceResult,
}

impl From<DrawnPiece> for PieceResult {
    ghost from_gives = { λ drawn flat. flat ≡ flat_piece drawn };

    #[tactic(auto, using(crate::proofs::Zero::default_float))]
    fn from(drawn: DrawnPiece) -> PieceResult {
        let from = drawn.from;
        match drawn.piece {
            Piece::Arc(square, linear, constant) => PieceResult {
                kind: 2,
                seconds: from.seconds,
                remainder: from.remainder,
                divisor: from.divisor,
                square,
                linear,
                constant,
            },
            Piece::Straight(linear, constant) => PieceResult {
                kind: 1,
                seconds: from.seconds,
                remainder: from.remainder,
                divisor: from.divisor,
                linear,
                constant,
                ..PieceResult::default()
            },
        }
    }
}

impl From<Drawing> for DrawingResult {
    ghost from_gives = { λ drawing flat. flat ≡ flat_pieces (pieces_of drawing) };

    #[tactic(auto, using(crate::proofs::Zero::default_float))]
    fn from(drawing: Drawing) -> DrawingResult {
        match drawing {
            Drawing::One(p) => DrawingResult {
                pieces: 1,
                first: PieceResult::from(p),
                ..DrawingResult::default()
            },
            Drawing::Two(p, q) => DrawingResult {
                pieces: 2,
                first: PieceResult::from(p),
                second: PieceResult::from(q),
                ..DrawingResult::default()
            },
            Drawing::Three(p, q, r) => DrawingResult {
                refusal: 0,
                pieces: 3,
                first: PieceResult::from(p),
                second: PieceResult::from(q),
                third: PieceResult::from(r),
            },
        }
    }
}

impl From<Refusal> for DrawingResult {
    ghost from_gives = { λ why flat. flat ≡ flat_content (Err why) };

    #[tactic(auto, using(crate::proofs::Zero::default_float))]
    fn from(why: Refusal) -> DrawingResult {
        DrawingResult {
            refusal: u64::from(why.number()),
            ..DrawingResult::default()
        }
    }
}

impl From<Result<Drawing, Refusal>> for DrawingResult {
    ghost from_gives = { λ drawing flat. flat ≡ flat_content (content drawing) };

    fn from(drawing: Result<Drawing, Refusal>) -> DrawingResult {
        match drawing {
            Ok(drawing) => DrawingResult::from(drawing),
            Err(why) => DrawingResult::from(why),
        }
    }
}

impl From<Result<Option<Drawing>, Refusal>> for DrawingResult {
    ghost from_gives = { λ drawing flat. flat ≡ flat_upper_content (upper_content drawing) };

    #[tactic(auto, using(crate::proofs::Zero::default_float))]
    fn from(drawing: Result<Option<Drawing>, Refusal>) -> DrawingResult {
        match drawing {
            Ok(Some(drawing)) => DrawingResult::from(drawing),
            Ok(None) => DrawingResult::default(),
            Err(why) => DrawingResult::from(why),
        }
    }
}

// Draws the lower path of a question, any 64-bit values.
pub fn screen_drawing(encounter: Encounter, settings: Settings, question: Question) -> DrawingResult
    ensures { result ≡ flat_content (screen_drawing encounter settings question) }
{
    DrawingResult::from(screen::screen_drawing(encounter, settings, question))
}

// Draws the upper path of a question, if it is two-sided; any 64-bit values.
pub fn upper_drawing(encounter: Encounter, settings: Settings, question: Question) -> DrawingResult
    ensures { result ≡ flat_upper_content (upper_drawing encounter settings question) }
{
    DrawingResult::from(screen::upper_drawing(encounter, settings, question))
}

// A screen point and refusal 0, or the refusal's number and two zeros.
#[repr(C)]
#[derive(Clone, Copy, Default)]
pub struct PointResult {
    pub refusal: u64,
    pub time: f64,
    pub height: f64,
}

impl From<Result<ScreenPoint, Refusal>> for PointResult {
    ghost from_gives = { λ answer flat. flat ≡ flat_point answer };

    #[tactic(auto, using(crate::proofs::Zero::default_float))]
    fn from(answer: Result<ScreenPoint, Refusal>) -> PointResult {
        match answer {
            Err(why) => PointResult {
                refusal: u64::from(why.number()),
                ..PointResult::default()
            },
            Ok(point) => PointResult {
                refusal: 0,
                time: point.time,
                height: point.height,
            },
        }
    }
}

// The screen point of a question at a second, any 64-bit values.
pub fn screen_point(
    encounter: Encounter,
    settings: Settings,
    question: Question,
    second: u64,
) -> PointResult
    ensures { result ≡ flat_point (screen_point encounter settings question second) }
{
    PointResult::from(screen::screen_point(encounter, settings, question, second))
}

// A screen point of the upper path, refusal 0 and 1 for asked; of a one-sided question zeros; of a refused point the number. What is not used is 0.
#[repr(C)]
#[derive(Clone, Copy, Default)]
pub struct UpperPointResult {
    pub refusal: u64,
    pub asked: u64,
    pub time: f64,
    pub height: f64,
}

impl From<Result<Option<ScreenPoint>, Refusal>> for UpperPointResult {
    ghost from_gives = { λ answer flat. flat ≡ flat_upper_point answer };

    #[tactic(auto, using(crate::proofs::Zero::default_float))]
    fn from(answer: Result<Option<ScreenPoint>, Refusal>) -> UpperPointResult {
        match answer {
            Err(why) => UpperPointResult {
                refusal: u64::from(why.number()),
                ..UpperPointResult::default()
            },
            Ok(None) => UpperPointResult::default(),
            Ok(Some(upper)) => UpperPointResult {
                refusal: 0,
                asked: 1,
                time: upper.time,
                height: upper.height,
            },
        }
    }
}

// The screen point of a question's upper path at a second, if it is two-sided; any 64-bit values.
pub fn upper_point(
    encounter: Encounter,
    settings: Settings,
    question: Question,
    second: u64,
) -> UpperPointResult
    ensures { result ≡ flat_upper_point (upper_point encounter settings question second) }
{
    UpperPointResult::from(screen::upper_point(encounter, settings, question, second))
}

// Of a flight that is flown refusal 0, 1 if it obeys, 1 if it is inside the puck, and the first such second; of a refused one the number. What is not used is 0.
#[repr(C)]
#[derive(Clone, Copy, PartialEq, Eq, Default)]
pub struct FlightResult {
    pub refusal: u64,
    pub obeys: u64,
    pub inside: u64,
    pub second: u64,
}

impl From<Flown> for FlightResult {
    ghost from_gives = { λ flown flat. flat ≡ flat_entry (yes_number flown.obeys) flown.inside };

    fn from(flown: Flown) -> FlightResult {
        FlightResult {
            refusal: 0,
            obeys: u64::from(flown.obeys),
            inside: u64::from(flown.inside.is_some()),
            second: flown.inside.unwrap_or(0),
        }
    }
}

impl From<Result<Flown, Refusal>> for FlightResult {
    ghost from_gives = { λ answer flat. flat ≡ flat_flight answer };

    fn from(answer: Result<Flown, Refusal>) -> FlightResult {
        match answer {
            Ok(flown) => FlightResult::from(flown),
            Err(why) => FlightResult {
                refusal: u64::from(why.number()),
                ..FlightResult::default()
            },
        }
    }
}

// Judges a candidate's flight: any 64-bit values, and the flight's numbers, pairs of acceleration and seconds, as many as there are.
pub fn judge_flight(
    encounter: Encounter,
    settings: Settings,
    advice: OneSidedAdvice,
    flight: &[i64],
) -> FlightResult
    ensures { result ≡ flat_flight (flight_answer encounter settings advice flight.now) }
{
    FlightResult::from(candidate::judge_flight(encounter, settings, advice, flight))
}

// Of an instant that is judged refusal 0, 1 for in reach, 1 if it is in the window, and of each side 2 if it is a conflict time there, 1 if it is none, 0 if the side is not asked;
// of an instant out of reach zeros; of a refused question the number. What is not used is 0.
#[repr(C)]
#[derive(Clone, Copy, PartialEq, Eq, Default)]
pub struct InstantResult {
    pub refusal: u64,
    pub in_reach: u64,
    pub in_window: u64,
    pub lower: u64,
    pub upper: u64,
}

fn side_number(conflict: Option<bool>) -> u64
    ensures { result ≡ side_number conflict }
{
    match conflict {
        None => 0,
        Some(false) => 1,
        Some(true) => 2,
    }
}

impl From<Result<InstantAnswer, Refusal>> for InstantResult {
    ghost from_gives = { λ answer flat. flat ≡ flat_instant answer };

    fn from(answer: Result<InstantAnswer, Refusal>) -> InstantResult {
        match answer {
            Err(why) => InstantResult {
                refusal: u64::from(why.number()),
                ..InstantResult::default()
            },
            Ok(InstantAnswer::OutOfReach) => InstantResult::default(),
            Ok(InstantAnswer::Judged(found)) => InstantResult {
                refusal: 0,
                in_reach: 1,
                in_window: u64::from(found.in_window),
                lower: side_number(Some(found.lower)),
                upper: side_number(found.upper),
            },
        }
    }
}

// Judges an instant against a question, any 64-bit values.
pub fn judge_at(
    encounter: Encounter,
    settings: Settings,
    question: Question,
    instant: Instant,
) -> InstantResult
    ensures { result ≡ flat_instant (instant_answer encounter settings question instant) }
{
    InstantResult::from(named_instant::judge_at(encounter, settings, question, instant))
}

// The free question that a code asks, and refusal 0; of a refused code the number. What is not used is 0.
#[repr(C)]
#[derive(Clone, Copy, PartialEq, Eq, Default)]
pub struct QuestionResult {
    pub refusal: u64,
    pub sides: i64,
    pub sense: i64,
    pub target: i64,
    pub upper_target: i64,
    pub strength: i64,
    pub upper_strength: i64,
    pub delay: i64,
    pub limit: i64,
}

impl From<Result<Question, Refusal>> for QuestionResult {
    ghost from_gives = { λ answer flat. flat ≡ flat_question answer };

    fn from(answer: Result<Question, Refusal>) -> QuestionResult {
        match answer {
            Err(why) => QuestionResult {
                refusal: u64::from(why.number()),
                ..QuestionResult::default()
            },
            Ok(question) => QuestionResult {
                refusal: 0,
                sides: question.sides,
                sense: question.sense,
                target: question.target,
                upper_target: question.upper_target,
                strength: question.strength,
                upper_strength: question.upper_strength,
                delay: question.delay,
                limit: question.limit,
            },
        }
    }
}

// A code as a byte of a sheet has it, 0 to 255; a greater number is unknown as well.
#[tactic(auto, using(crate::proofs::GreaterCodes::greater_code_unknown))]
fn question_of_code(code: u64, v: i64, limit: i64) -> Result<Question, Refusal>
    ensures { result ≡ coded_question code v limit }
{
    match u8::try_from(code) {
        Ok(byte) => coded::coded_question(byte, v, limit),
        Err(_) => Err(Refusal::CodeUnknown),
    }
}

// The free question that a code asks an ownship of vertical speed v: any 64-bit values. Speed and limit are not tested: the judge tests them with the question.
pub fn coded_question(code: u64, v: i64, limit: i64) -> QuestionResult
    ensures { result ≡ flat_question (coded_question code v limit) }
{
    QuestionResult::from(question_of_code(code, v, limit))
}
