// The window at an instant, its first time and its end: exact 64-bit code for the definitions of `path`.
// Locals bear document 01's letters (`path`, specs/Letters.antt).
#![tactic(auto)]

ghost use Rattle.std.specs.Prelude.{◌≡◌, nat_abs};
ghost use Rattle.integers.specs.Extremes.{max0};
ghost use Rattle.path.specs.declared.Side.TheVariants.{Upper};
ghost use Rattle.path.specs.Letters.{r, c, p};
ghost use Rattle.path.specs.Window.{distance_at, exit_of, window_end};
ghost use Rattle.path.specs.inner.Tests.{in_time, in_window, opening};
ghost use Rattle.path.specs.inner.Sizes.{LimitSize, InReach};

use instant::{Instant, earlier};
use path::SizedQuestion;

// max(0, x)
pub fn positive_part(x: i64) -> u64
    ensures { result ≡ max0 x }
{
    x.max(0) as u64
}

// |x|
pub fn absolute(x: i64) -> u64
    ensures { result ≡ nat_abs x }
{
    x.unsigned_abs()
}

// Is the instant no later than the limit?
fn in_time(limit: Option<u64>, t: Instant) -> bool
    requires limit_size { LimitSize limit }
    requires in_reach { InReach Upper t.n t.m }
    ensures { result ≡ in_time limit t.n t.m }
{
    match limit {
        None => true,
        Some(last) => t.n <= last * t.m,
    }
}

// r − c·t, times the instant's divisor.
pub fn distance_at(question: SizedQuestion, t: Instant) -> i64
    requires { InReach Upper t.n t.m }
    ensures { result ≡ distance_at question.sensed t.n t.m }
{
    let r = question.sensed.distance;
    let c = question.sensed.closing_speed as i64;
    let n = t.n as i64;
    let m = t.m as i64;
    r * m - c * n
}

// Is the instant in the window? Its edges count, and so does the limit itself.
#[tactic(auto, unfolding(path::specs::inner::Tests::in_window))]
pub fn in_window(question: SizedQuestion, t: Instant) -> bool
    requires { InReach Upper t.n t.m }
    ensures { result ≡ in_window question.sensed t.n t.m }
{
    let s = question.sensed;
    let ahead = distance_at(question, t);
    absolute(ahead) <= s.radius * t.m && in_time(s.limit, t)
}

// The window's first time: none where the intruder has passed, stands still outside the puck's radius, or comes there after the limit.
pub fn opening(question: SizedQuestion) -> Option<Instant>
    ensures { result ≡ opening question.sensed }
{
    let s = question.sensed;
    let r = s.distance;
    let p = s.radius as i64;
    if r + p < 0 {
        return None;
    }
    let ahead = positive_part(r - p);
    let c = s.closing_speed;
    if c == 0 {
        return (ahead == 0).then_some(Instant { n: 0, m: 1 });
    }
    let start = Instant { n: ahead, m: c };
    in_time(s.limit, start).then_some(start)
}

// Where the intruder leaves the puck's radius, for a closing speed above 0.
fn window_exit(question: SizedQuestion) -> Instant
    ensures { result ≡ exit_of (c question.sensed) (r question.sensed) (p question.sensed) }
{
    let s = question.sensed;
    let r = s.distance;
    let p = s.radius as i64;
    Instant {
        n: positive_part(r + p),
        m: s.closing_speed,
    }
}

// Its end: its exit or the limit, whichever is earlier, or none.
pub fn window_end(question: SizedQuestion) -> Option<Instant>
    ensures { result ≡ window_end question.sensed }
{
    match (question.sensed.closing_speed, question.sensed.limit) {
        (0, None) => None,
        (0, Some(last)) => Some(Instant { n: last, m: 1 }),
        (_, None) => Some(window_exit(question)),
        (_, Some(last)) => Some(earlier(window_exit(question), Instant { n: last, m: 1 })),
    }
}
