// The pieces of a side's path, in whole numbers: exact 64-bit code for the definitions in `specs/`. Locals bear document 01's letters (`path`, specs/Letters.antt) for
// the lower path; on the upper the same letters stand for its own numbers (specs/Pieces.antt).
#![tactic(auto)]

ghost use Rattle.std.specs.Prelude.{◌≡◌, ◌≤◌};
ghost use Rattle.instant.specs.Order.{◌÷◌};
ghost use Rattle.limits.specs.Limits.{max_strength};
ghost use Rattle.conflict.specs.inner.Divided.{bend, strength_of};
ghost use Rattle.pieces.specs.Pieces.{height_after_delay, missing_speed, delay_piece, arc_piece, last_piece, piece_at, last_second};

use conflict::{positive_difference, rule_target, speed_after_delay};
use instant::{Instant, no_later};
use path::{Side, SideQuestion};

// A piece of path: from when it holds, and the coefficients of t², t and 1, times 2·a.
#[derive(Clone, Copy)]
pub struct WholePiece {
    pub from: Instant,
    pub square: i64,
    pub linear: i64,
    pub constant: i64,
}

// The acceleration during the delay: against the advice on the lower path, towards it on the upper.
fn delay_bend(asked: SideQuestion) -> i64
    ensures { result ≡ bend asked.side asked.question.sensed }
{
    let e = asked.question.sensed.delay_acceleration as i64;
    match asked.side {
        Side::Lower => -e,
        Side::Upper => e,
    }
}

// (`conflict`'s own of this and of the bend are parts of a rule, edge and all, which a drawing does not make.)
fn strength(asked: SideQuestion) -> u64
    ensures value { result ≡ strength_of asked.side asked.question.sensed }
    ensures small { result ≤ max_strength }
{
    match asked.side {
        Side::Lower => asked.question.sensed.strength,
        Side::Upper => asked.question.sensed.upper_strength,
    }
}

// The height f_d at the delay's end, times 2·a.
fn height_after_delay(asked: SideQuestion) -> i64
    ensures { result ≡ height_after_delay asked.side asked.question.sensed }
{
    let bend = delay_bend(asked);
    let a = strength(asked) as i64;
    let u = asked.question.sensed.speed;
    let d = asked.question.sensed.delay as i64;
    a * (2 * u * d + bend * d * d)
}

// G, the speed that is missing at the delay's end.
pub fn missing_speed(asked: SideQuestion) -> u64
    ensures { result ≡ missing_speed asked.side asked.question.sensed }
{
    let q = rule_target(asked);
    let u_d = speed_after_delay(asked.side, asked.question);
    positive_difference(q, u_d)
}

pub fn delay_piece(asked: SideQuestion) -> WholePiece
    ensures { result ≡ delay_piece asked.side asked.question.sensed }
{
    let bend = delay_bend(asked);
    let a = strength(asked) as i64;
    let u = asked.question.sensed.speed;
    WholePiece {
        from: Instant { n: 0, m: 1 },
        square: a * bend,
        linear: 2 * a * u,
        constant: 0,
    }
}

// Coefficients in t, not in the time t − d since the delay's end.
pub fn arc_piece(asked: SideQuestion) -> WholePiece
    ensures { result ≡ arc_piece asked.side asked.question.sensed }
{
    let u_d = speed_after_delay(asked.side, asked.question);
    let height = height_after_delay(asked);
    let a = strength(asked) as i64;
    let d = asked.question.sensed.delay as i64;
    WholePiece {
        from: Instant {
            n: asked.question.sensed.delay,
            m: 1,
        },
        square: a * a,
        linear: 2 * a * u_d - 2 * a * a * d,
        constant: height - 2 * a * u_d * d + a * a * d * d,
    }
}

pub fn last_piece(asked: SideQuestion) -> WholePiece
    ensures { result ≡ last_piece asked.side asked.question.sensed }
{
    let gap = missing_speed(asked);
    let height = height_after_delay(asked);
    let strength = strength(asked);
    let q = rule_target(asked);
    let a = strength as i64;
    let d = asked.question.sensed.delay as i64;
    let g = gap as i64;
    WholePiece {
        from: Instant {
            n: asked.question.sensed.delay * strength + gap,
            m: strength,
        },
        square: 0,
        linear: 2 * a * q,
        constant: height - 2 * a * q * d - g * g,
    }
}

// The piece that holds at a whole second.
pub fn piece_at(asked: SideQuestion, second: u64) -> WholePiece
    requires { second ≤ last_second }
    ensures { result ≡ piece_at asked.side asked.question.sensed (second ÷ 1) }
{
    let now = Instant { n: second, m: 1 };
    let last = last_piece(asked);
    if no_later(last.from, now) {
        return last;
    }
    let arc = arc_piece(asked);
    if no_later(arc.from, now) {
        return arc;
    }
    delay_piece(asked)
}
