// The judge for programs in C and Rust: a static library, built by `tools/archive`. Each export is `binding`'s function of the same name; a question's numbers pass as
// themselves, one parameter each, since a struct by value crosses differently from machine to machine.
#![tactic(auto)]

ghost use Rattle.std.specs.Prelude.{◌≡◌, length};
ghost use Rattle.judge.specs.Answers.{answer};
ghost use Rattle.sheet.specs.WholeSheet.{outcome, area_after};
ghost use Rattle.candidate.specs.FlightAnswers.{flight_answer};
ghost use Rattle.screen.specs.Drawings.{screen_drawing, upper_drawing};
ghost use Rattle.screen.specs.Points.{screen_point, upper_point};
ghost use Rattle.binding.specs.PlainNumbers.{plain_encounter, plain_settings, plain_question, plain_advice};
ghost use Rattle.binding.specs.Flat.{flat_answer, flat_outcome};
ghost use Rattle.binding.specs.Flight.{flat_flight};
ghost use Rattle.binding.specs.Instants.{flat_instant};
ghost use Rattle.instant.specs.Order.{◌÷◌};
ghost use Rattle.named_instant.specs.InstantAnswers.{instant_answer};
ghost use Rattle.binding.specs.Screen.{flat_content, flat_upper_content, flat_point, flat_upper_point};
ghost use Rattle.binding.specs.Coded.{flat_question};
ghost use Rattle.coded.specs.Coded.{coded_question};

use binding::{
    DrawingResult, FlightResult, InstantResult, JudgeResult, PointResult, QuestionResult,
    SheetResult, UpperPointResult, plain_advice, plain_encounter, plain_question, plain_settings,
};
use instant::Instant;

// Judges sixteen plain numbers, any 64-bit values.
#[unsafe(no_mangle)]
pub extern "C" fn judge_plain(
    r: i64,
    h: i64,
    c: i64,
    v: i64,
    vi: i64,
    p: i64,
    k: i64,
    e: i64,
    sides: i64,
    sense: i64,
    target: i64,
    upper_target: i64,
    strength: i64,
    upper_strength: i64,
    delay: i64,
    limit: i64,
) -> JudgeResult
    ensures { result ≡ flat_answer (answer (plain_encounter r h c v vi) (plain_settings p k e) (plain_question sides sense target upper_target strength upper_strength delay limit)) }
{
    binding::judge_plain(
        plain_encounter(r, h, c, v, vi),
        plain_settings(p, k, e),
        plain_question(
            sides,
            sense,
            target,
            upper_target,
            strength,
            upper_strength,
            delay,
            limit,
        ),
    )
}

// Answers any sheet into any area.
#[unsafe(no_mangle)]
pub extern "C" fn answer_sheet_bytes(sheet: &[u8], area: &mut [u8]) -> SheetResult
    ensures { (result ≡ flat_outcome (outcome sheet.now (length area.old))) × (area.new ≡ area_after sheet.now area.old) }
{
    binding::answer_sheet_bytes(sheet, area)
}

// Draws the lower path of sixteen plain numbers, any 64-bit values.
#[unsafe(no_mangle)]
pub extern "C" fn screen_drawing(
    r: i64,
    h: i64,
    c: i64,
    v: i64,
    vi: i64,
    p: i64,
    k: i64,
    e: i64,
    sides: i64,
    sense: i64,
    target: i64,
    upper_target: i64,
    strength: i64,
    upper_strength: i64,
    delay: i64,
    limit: i64,
) -> DrawingResult
    ensures { result ≡ flat_content (screen_drawing (plain_encounter r h c v vi) (plain_settings p k e) (plain_question sides sense target upper_target strength upper_strength delay limit)) }
{
    binding::screen_drawing(
        plain_encounter(r, h, c, v, vi),
        plain_settings(p, k, e),
        plain_question(
            sides,
            sense,
            target,
            upper_target,
            strength,
            upper_strength,
            delay,
            limit,
        ),
    )
}

// Draws the upper path of sixteen plain numbers, if they are two-sided; any 64-bit values.
#[unsafe(no_mangle)]
pub extern "C" fn upper_drawing(
    r: i64,
    h: i64,
    c: i64,
    v: i64,
    vi: i64,
    p: i64,
    k: i64,
    e: i64,
    sides: i64,
    sense: i64,
    target: i64,
    upper_target: i64,
    strength: i64,
    upper_strength: i64,
    delay: i64,
    limit: i64,
) -> DrawingResult
    ensures { result ≡ flat_upper_content (upper_drawing (plain_encounter r h c v vi) (plain_settings p k e) (plain_question sides sense target upper_target strength upper_strength delay limit)) }
{
    binding::upper_drawing(
        plain_encounter(r, h, c, v, vi),
        plain_settings(p, k, e),
        plain_question(
            sides,
            sense,
            target,
            upper_target,
            strength,
            upper_strength,
            delay,
            limit,
        ),
    )
}

// The screen point of sixteen plain numbers at a second, any 64-bit values.
#[unsafe(no_mangle)]
pub extern "C" fn screen_point(
    r: i64,
    h: i64,
    c: i64,
    v: i64,
    vi: i64,
    p: i64,
    k: i64,
    e: i64,
    sides: i64,
    sense: i64,
    target: i64,
    upper_target: i64,
    strength: i64,
    upper_strength: i64,
    delay: i64,
    limit: i64,
    second: u64,
) -> PointResult
    ensures { result ≡ flat_point (screen_point (plain_encounter r h c v vi) (plain_settings p k e) (plain_question sides sense target upper_target strength upper_strength delay limit) second) }
{
    binding::screen_point(
        plain_encounter(r, h, c, v, vi),
        plain_settings(p, k, e),
        plain_question(
            sides,
            sense,
            target,
            upper_target,
            strength,
            upper_strength,
            delay,
            limit,
        ),
        second,
    )
}

// The screen point of the upper path of sixteen plain numbers at a second, if they are two-sided; any 64-bit values.
#[unsafe(no_mangle)]
pub extern "C" fn upper_point(
    r: i64,
    h: i64,
    c: i64,
    v: i64,
    vi: i64,
    p: i64,
    k: i64,
    e: i64,
    sides: i64,
    sense: i64,
    target: i64,
    upper_target: i64,
    strength: i64,
    upper_strength: i64,
    delay: i64,
    limit: i64,
    second: u64,
) -> UpperPointResult
    ensures { result ≡ flat_upper_point (upper_point (plain_encounter r h c v vi) (plain_settings p k e) (plain_question sides sense target upper_target strength upper_strength delay limit) second) }
{
    binding::upper_point(
        plain_encounter(r, h, c, v, vi),
        plain_settings(p, k, e),
        plain_question(
            sides,
            sense,
            target,
            upper_target,
            strength,
            upper_strength,
            delay,
            limit,
        ),
        second,
    )
}

// Judges a candidate's flight: thirteen plain numbers, any 64-bit values, and the flight's numbers, pairs of acceleration and seconds, as many as there are.
#[unsafe(no_mangle)]
pub extern "C" fn judge_flight(
    r: i64,
    h: i64,
    c: i64,
    v: i64,
    vi: i64,
    p: i64,
    k: i64,
    e: i64,
    sense: i64,
    target: i64,
    strength: i64,
    delay: i64,
    limit: i64,
    flight: &[i64],
) -> FlightResult
    ensures { result ≡ flat_flight (flight_answer (plain_encounter r h c v vi) (plain_settings p k e) (plain_advice sense target strength delay limit) flight.now) }
{
    binding::judge_flight(
        plain_encounter(r, h, c, v, vi),
        plain_settings(p, k, e),
        plain_advice(sense, target, strength, delay, limit),
        flight,
    )
}

// Judges the instant n/m against sixteen plain numbers, any 64-bit values.
#[unsafe(no_mangle)]
pub extern "C" fn judge_at(
    r: i64,
    h: i64,
    c: i64,
    v: i64,
    vi: i64,
    p: i64,
    k: i64,
    e: i64,
    sides: i64,
    sense: i64,
    target: i64,
    upper_target: i64,
    strength: i64,
    upper_strength: i64,
    delay: i64,
    limit: i64,
    n: u64,
    m: u64,
) -> InstantResult
    ensures { result ≡ flat_instant (instant_answer (plain_encounter r h c v vi) (plain_settings p k e) (plain_question sides sense target upper_target strength upper_strength delay limit) (n ÷ m)) }
{
    binding::judge_at(
        plain_encounter(r, h, c, v, vi),
        plain_settings(p, k, e),
        plain_question(
            sides,
            sense,
            target,
            upper_target,
            strength,
            upper_strength,
            delay,
            limit,
        ),
        Instant { n, m },
    )
}

// The free question that a code asks an ownship of vertical speed v, any 64-bit values.
#[unsafe(no_mangle)]
pub extern "C" fn coded_question(code: u64, v: i64, limit: i64) -> QuestionResult
    ensures { result ≡ flat_question (coded_question code v limit) }
{
    binding::coded_question(code, v, limit)
}
