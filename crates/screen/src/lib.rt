// The paths on the screen: the pieces of each with 64-bit floats, and the point of each whole second. `specs/` says what they are.
//
// What both sides share is inlined: so each side gets code of its own, and no question is copied. Called, it costs a point twice the instructions.
#![tactic(auto)]

ghost use Rattle.std.specs.Prelude.{◌≡◌, ◌≤◌, IfOk, IfErr, Err, true};
ghost use Rattle.path.specs.declared.Side.TheVariants.{Upper};
ghost use Rattle.question.specs.Refusals.{two_sided};
ghost use Rattle.sensed.specs.Sensed.{sensed_question};
ghost use Rattle.pieces.specs.Pieces.{last_second};
ghost use Rattle.pieces.specs.inner.PieceSizes.{PieceSizes};
ghost use Rattle.screen.specs.Drawings.{float_piece, drawn_piece, pieces_of, content, upper_content, drawn_pieces, screen_drawing, upper_drawing};
ghost use Rattle.screen.specs.Points.{evaluated, point_at, point_refusal, screen_point, upper_point};

use instant::{Time, lowest_terms};
use path::{Side, SideQuestion};
use pieces::{WholePiece, arc_piece, delay_piece, last_piece, missing_speed, piece_at};
use question::{AcceptedQuestion, Encounter, Question, Refusal, Settings, two_sided};
use refusals::accept;
use sensed::sensed_question;

// The last second that is drawn.
const LAST_SECOND: u64 = 600;

// A stretch of path with its coefficients: an arc of t², t and 1, a straight of t and 1.
#[derive(Clone, Copy)]
pub enum Piece {
    Arc(f64, f64, f64),
    Straight(f64, f64),
}

// A piece, and the time from which it holds.
#[derive(Clone, Copy)]
pub struct DrawnPiece {
    pub from: Time,
    pub piece: Piece,
}

// One to three pieces in time's order.
#[derive(Clone, Copy)]
pub enum Drawing {
    One(DrawnPiece),
    Two(DrawnPiece, DrawnPiece),
    Three(DrawnPiece, DrawnPiece, DrawnPiece),
}

#[derive(Clone, Copy)]
pub struct ScreenPoint {
    pub time: f64,
    pub height: f64,
}

// Every whole number of a piece is below 2⁵³, so its cast is exact. (Neither this nor `drawn_piece` is a `From`, which could not ask for these sizes: a `WholePiece`
// does not keep them, as definitions make one from any question.)
fn float_piece(p: WholePiece) -> Piece
    requires { PieceSizes p }
    ensures { result ≡ float_piece p }
{
    let square = p.square;
    let linear = p.linear;
    let constant = p.constant;
    if square == 0 {
        return Piece::Straight(linear as f64, constant as f64);
    }
    Piece::Arc(square as f64, linear as f64, constant as f64)
}

fn drawn_piece(p: WholePiece) -> DrawnPiece
    requires { PieceSizes p }
    ensures { result ≡ drawn_piece p }
{
    DrawnPiece {
        from: lowest_terms(p.from.n, p.from.m),
        piece: float_piece(p),
    }
}

// The pieces that have a length.
#[inline(always)]
fn drawing_of(asked: SideQuestion) -> Drawing
    ensures { pieces_of result ≡ drawn_pieces asked.side asked.question.sensed }
{
    let last = drawn_piece(last_piece(asked));
    if missing_speed(asked) == 0 {
        if asked.question.sensed.delay == 0 {
            return Drawing::One(last);
        }
        return Drawing::Two(drawn_piece(delay_piece(asked)), last);
    }
    let arc = drawn_piece(arc_piece(asked));
    if asked.question.sensed.delay == 0 {
        return Drawing::Two(arc, last);
    }
    Drawing::Three(drawn_piece(delay_piece(asked)), arc, last)
}

// A side that an accepted question asks.
fn side_of(asked: AcceptedQuestion, side: Side) -> SideQuestion
    requires { side ≡ Upper → two_sided asked.question ≡ true }
    ensures same { result.side ≡ side }
    ensures sensed { result.question.sensed ≡ sensed_question asked.encounter asked.settings asked.question }
{
    SideQuestion {
        side,
        question: sensed_question(asked),
    }
}

// The entry for a drawing of the lower path: any 64-bit values.
#[tactic(auto, unfolding(crate::specs::Drawings::screen_drawing))]
pub fn screen_drawing(
    encounter: Encounter,
    settings: Settings,
    question: Question,
) -> Result<Drawing, Refusal>
    ensures { content result ≡ screen_drawing encounter settings question }
{
    let asked = accept(encounter, settings, question)?;
    Ok(drawing_of(side_of(asked, Side::Lower)))
}

// The entry for a drawing of the upper path, which a one-sided question does not have: any 64-bit values.
#[tactic(auto, unfolding(crate::specs::Drawings::upper_drawing))]
pub fn upper_drawing(
    encounter: Encounter,
    settings: Settings,
    question: Question,
) -> Result<Option<Drawing>, Refusal>
    ensures { upper_content result ≡ upper_drawing encounter settings question }
{
    let asked = accept(encounter, settings, question)?;
    if !two_sided(question) {
        return Ok(None);
    }
    Ok(Some(drawing_of(side_of(asked, Side::Upper))))
}

// The constant coefficient is added last: it is +0 where it is 0, so no −0 comes out.
fn evaluate(piece: Piece, t: f64) -> f64
    ensures { result ≡ evaluated piece t }
{
    match piece {
        Piece::Arc(square, linear, constant) => (square * t + linear) * t + constant,
        Piece::Straight(linear, constant) => linear * t + constant,
    }
}

#[inline(always)]
fn point_at(asked: SideQuestion, second: u64) -> ScreenPoint
    requires { second ≤ last_second }
    ensures { result ≡ point_at asked.side asked.question.sensed second }
{
    let piece = float_piece(piece_at(asked, second));
    let time = second as f64;
    ScreenPoint {
        time: time,
        height: evaluate(piece, time),
    }
}

// A second above 600 gets 6, after the refusals of the entry for plain numbers.
#[tactic(auto, using(crate::proofs::PointChecks::in_time_lem, crate::proofs::PointChecks::late_second, crate::proofs::PointChecks::refused_point))]
#[inline(always)]
fn accept_second(
    encounter: Encounter,
    settings: Settings,
    question: Question,
    second: u64,
) -> Result<AcceptedQuestion, Refusal>
    ensures in_time { IfOk result (λ asked. second ≤ last_second) }
    ensures same { IfOk result (λ asked. (asked.encounter ≡ encounter) × (asked.settings ≡ settings) × (asked.question ≡ question)) }
    ensures refused { IfErr result (λ why. point_refusal encounter settings question second ≡ Err why) }
{
    let asked = accept(encounter, settings, question)?;
    if LAST_SECOND < second {
        return Err(Refusal::TimesOutside);
    }
    Ok(asked)
}

// The entry for a screen point of the lower path: any 64-bit values.
#[tactic(auto, using(crate::proofs::PointChecks::in_time_lem), unfolding(crate::specs::Points::screen_point))]
pub fn screen_point(
    encounter: Encounter,
    settings: Settings,
    question: Question,
    second: u64,
) -> Result<ScreenPoint, Refusal>
    ensures { result ≡ screen_point encounter settings question second }
{
    let asked = accept_second(encounter, settings, question, second)?;
    Ok(point_at(side_of(asked, Side::Lower), second))
}

// The entry for a screen point of the upper path, which a one-sided question does not have: any 64-bit values.
#[tactic(auto, using(crate::proofs::PointChecks::in_time_lem), unfolding(crate::specs::Points::upper_point))]
pub fn upper_point(
    encounter: Encounter,
    settings: Settings,
    question: Question,
    second: u64,
) -> Result<Option<ScreenPoint>, Refusal>
    ensures { result ≡ upper_point encounter settings question second }
{
    let asked = accept_second(encounter, settings, question, second)?;
    if !two_sided(asked.question) {
        return Ok(None);
    }
    Ok(Some(point_at(side_of(asked, Side::Upper), second)))
}
