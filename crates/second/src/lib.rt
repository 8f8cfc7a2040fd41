// A whole second of a flight, from n to n + 1: whether it obeys, and whether it is inside the puck. Exact 64-bit code for the tests of `flight`.
//
// Locals bear document 01's letters and those of `flight` (specs/inner/Parts.antt): τ into the second the height has gained v·τ + g·τ²/2. All heights here are
// twice the height. x/y and z/y are the ends of a part of the second.
#![tactic(auto)]

ghost use Rattle.std.specs.Prelude.{◌≡◌, ◌≤◌, pos, ◌+ℤ◌, ◌-ℤ◌, ◌*ℤ◌, nat_abs};
ghost use Rattle.limits.specs.Limits.{max_height, max_closing_speed, max_half_height, max_flight_seconds};
ghost use Rattle.path.specs.Letters.{c, p, q, a};
ghost use Rattle.path.specs.Window.{distance_at};
ghost use Rattle.flight.specs.inner.Parts.{Proper, DivisorWithin, part_up_to, near_part};
ghost use Rattle.flight.specs.inner.Tests.{obeys_advice};
ghost use Rattle.flight.specs.inner.Clamped.{most_gained, clamped};
ghost use Rattle.second.specs.inner.SecondTests.{obeys_in, crosses_in, inside_at_start, turned_over};
ghost use Rattle.second.specs.inner.SecondSizes.{MotionSizes};

use flight::Part;
use instant::Instant;
use limits::{MAX_FLIGHT_ACCELERATION, MAX_FLIGHT_SECONDS, MAX_SPEED};
use path::SizedQuestion;
use window::{distance_at, positive_part};

mod approach;

use approach::Approach;

// How a flight moves at the second's first instant, in the question's sense: twice its height, its speed, and the acceleration that it keeps for the second.
#[derive(Clone, Copy)]
pub struct Motion {
    pub height: i64,
    pub speed: i64,
    pub acceleration: i64,
}

// The second that begins at n, of a flight within the limits. (Its sizes don't stand at Motion: `flown`'s definitions build motions of any flight. The question
// stands beside it and not in it: it is one for the whole flight, and each of its seconds would carry a copy.)
#[derive(Clone, Copy)]
pub struct Second {
    pub n: u64,
    pub motion: Motion,
    pub ghost early: { n ≤ max_flight_seconds },
    pub ghost sizes: { MotionSizes motion },
}

// From the delay's end on: the acceleration, or the speed at both ends of the second.
fn obeys_advice(s: SizedQuestion, second: Second) -> bool
    ensures { result ≡ obeys_advice (a s.sensed) (q s.sensed) second.motion.acceleration second.motion.speed (second.motion.speed +ℤ second.motion.acceleration) }
{
    let a = s.sensed.strength as i64;
    let q = s.sensed.target;
    let v = second.motion.speed;
    let g = second.motion.acceleration;
    (a <= g) | ((q <= v) & (q <= v + g))
}

// Does the second obey? The delay is whole seconds, so one rule is in force.
pub fn obeys_in_second(s: SizedQuestion, second: Second) -> bool
    ensures { result ≡ obeys_in s.sensed second.n second.motion }
{
    if second.n < s.sensed.delay {
        return second.motion.acceleration.unsigned_abs() <= s.sensed.delay_acceleration;
    }
    obeys_advice(s, second)
}

// Is the flight inside the puck, edges included, at n itself?
pub fn inside_at(s: SizedQuestion, second: Second) -> bool
    ensures { result ≡ inside_at_start s.sensed second.n second.motion }
{
    let ahead = distance_at(s, Instant { n: second.n, m: 1 });
    let above = 2 * s.sensed.level - second.motion.height;
    (ahead.unsigned_abs() <= s.sensed.radius) & (above.unsigned_abs() <= 2 * s.sensed.half_height)
}

// The part of the second from x/c on, up to end/c.
fn part_up_to(c: u64, x: u64, end: i64) -> Part
    ensures { result ≡ part_up_to c x end }
{
    if end < 0 || c <= x {
        return Part::Nowhere;
    }
    let z = end as u64;
    if z < c {
        return Part::FromTo(x, z, c);
    }
    Part::From(x, c)
}

// The part of the second in which the intruder is horizontally within the puck.
fn near_part(s: SizedQuestion, second: Second) -> Part
    ensures value { result ≡ near_part (c s.sensed) (p s.sensed) (distance_at s.sensed second.n 1) }
    ensures proper { Proper result }
    ensures divisor_within { DivisorWithin max_closing_speed result }
{
    let ahead = distance_at(s, Instant { n: second.n, m: 1 });
    let c = s.sensed.closing_speed;
    if c == 0 {
        if ahead.unsigned_abs() <= s.sensed.radius {
            return Part::From(0, 1);
        }
        return Part::Nowhere;
    }
    let p = s.sensed.radius as i64;
    part_up_to(c, positive_part(ahead - p), ahead + p)
}

// A flight's speed at most, and more than twice the height that a second can gain or lose: 2·|v| + |g| is below it.
const MOST_SPEED: i64 = 2 * MAX_SPEED + MAX_FLIGHT_ACCELERATION * (MAX_FLIGHT_SECONDS as i64);

const MOST_GAINED: i64 = 2 * MOST_SPEED + MAX_FLIGHT_ACCELERATION + 1;

const MOST_LOST: i64 = -MOST_GAINED;

// Up to the band of a puck at this level, whose lower edge is k below. The edge is measured from the height at n, and brought into the range that can be reached:
// as it comes, times y², it would not fit 64 bits.
fn upwards(level: i64, k: u64, motion: Motion) -> Approach
    requires level_hi { nat_abs level ≤ max_height }
    requires k_hi { k ≤ max_half_height }
    requires sizes { MotionSizes motion }
    ensures edge { result.edge ≡ clamped most_gained (pos 2 *ℤ (level -ℤ pos k) -ℤ motion.height) }
    ensures speed { result.speed ≡ motion.speed }
    ensures acceleration { result.acceleration ≡ motion.acceleration }
{
    let edge = 2 * (level - k as i64) - motion.height;
    Approach {
        edge: edge.clamp(MOST_LOST, MOST_GAINED),
        speed: motion.speed,
        acceleration: motion.acceleration,
    }
}

// Up becomes down.
fn turned_over(motion: Motion) -> Motion
    requires { MotionSizes motion }
    ensures { result ≡ turned_over motion }
{
    Motion {
        height: -motion.height,
        speed: -motion.speed,
        acceleration: -motion.acceleration,
    }
}

// Is the flight inside the puck at a rational time from n on, before n + 1? It comes up to the band, and, everything turned over, up to it too.
pub fn crosses_in_second(s: SizedQuestion, second: Second) -> bool
    ensures { result ≡ crosses_in s.sensed second.n second.motion }
{
    let part = near_part(s, second);
    let up = upwards(s.sensed.level, s.sensed.half_height, second.motion);
    let down = upwards(
        -s.sensed.level,
        s.sensed.half_height,
        turned_over(second.motion),
    );
    up.reaches(part) & down.reaches(part)
}
