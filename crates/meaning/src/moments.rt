// What kind of moment a time shown is.

ghost use Rattle.std.specs.Prelude.{◌≡◌};
ghost use Rattle.instant.specs.inner.Sizes.{SizedInstant};
ghost use Rattle.path.specs.Letters.{q, a, d};
ghost use Rattle.path.specs.Paths.{u_d};
ghost use Rattle.path.specs.Window.{window_start, window_end};
ghost use Rattle.path.specs.Instants.{turning_instant};
ghost use Rattle.path.specs.inner.Sizes.{Compared};
ghost use Rattle.path.specs.declared.Side.TheVariants.{Lower};
ghost use Rattle.meaning.specs.Moments.{same_time, is_instant, end_or_second, moment_at};

use conflict::speed_after_delay;
use instant::Instant;
use path::{Side, SizedQuestion};
use window::{positive_part, window_end};

// The kinds, with their numbers, in the order in which they are tried.
#[derive(Clone, Copy)]
pub enum Moment {
    WindowStart = 1,
    DelayEnd = 2,
    TurningInstant = 3,
    WindowEnd = 4,
    FirstWholeSecond = 5,
}

fn same_time(t: Instant, u: Instant) -> bool
    requires { SizedInstant t × SizedInstant u }
    ensures { result ≡ same_time t u }
{
    t.n * u.m == u.n * t.m
}

// Is it the instant at which the ownship's vertical speed comes up to the intruder's?
fn is_turning_instant(question: SizedQuestion, t: Instant) -> bool
    requires { Compared Lower t.n t.m }
    ensures { result ≡ is_instant (turning_instant (q question.sensed) (a question.sensed) (d question.sensed) (u_d question.sensed)) t }
{
    let s = question.sensed;
    let a = s.strength;
    let behind = positive_part(-speed_after_delay(Side::Lower, question));
    s.target >= 0
        && same_time(
            t,
            Instant {
                n: s.delay * a + behind,
                m: a,
            },
        )
}

fn end_or_second(question: SizedQuestion, t: Instant) -> Moment
    requires { Compared Lower t.n t.m }
    ensures { result ≡ end_or_second question.sensed t }
{
    match window_end(question) {
        Some(end) if same_time(t, end) => Moment::WindowEnd,
        _ => Moment::FirstWholeSecond,
    }
}

// The first kind whose instant the time is; `start` is the window's.
#[tactic(auto, unfolding(crate::specs::Moments::moment_at))]
pub fn moment_at(side: Side, question: SizedQuestion, start: Instant, t: Instant) -> Moment
    requires starts { start ≡ window_start question.sensed }
    requires compared { Compared Lower t.n t.m }
    ensures { result ≡ moment_at side question.sensed t }
{
    if same_time(t, start) {
        return Moment::WindowStart;
    }
    let end = Instant {
        n: question.sensed.delay,
        m: 1,
    };
    match side {
        Side::Lower if same_time(t, end) => Moment::DelayEnd,
        Side::Lower if is_turning_instant(question, t) => Moment::TurningInstant,
        _ => end_or_second(question, t),
    }
}
