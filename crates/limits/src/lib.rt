// Document 01's table of limits as the code's constants, in its order. `specs/Limits.antt` is the table; the tests of the fields, in `question` and
// `refusals`, are proved against it.
#![tactic(auto)]

ghost use Rattle.std.specs.Prelude.{◌≡◌};
ghost use Rattle.limits.specs.Limits.{within};

// r, distance ahead
pub const MAX_DISTANCE: i64 = 12000000;

pub const MIN_DISTANCE: i64 = -MAX_DISTANCE;

// h, intruder height above ownship
pub const MAX_HEIGHT: i64 = 480000;

pub const MIN_HEIGHT: i64 = -MAX_HEIGHT;

// c
pub const MAX_CLOSING_SPEED: i64 = 150000;

// v, vi, target and upper target
pub const MAX_SPEED: i64 = 10000;

pub const MIN_SPEED: i64 = -MAX_SPEED;

// p
pub const MAX_RADIUS: i64 = 60000;

// k
pub const MIN_HALF_HEIGHT: i64 = 1;

pub const MAX_HALF_HEIGHT: i64 = 12000;

// a and b
pub const MIN_STRENGTH: i64 = 1;

pub const MAX_STRENGTH: i64 = 2000;

// e
pub const MAX_DELAY_ACCELERATION: i64 = 2000;

// d, whole seconds
pub const MAX_DELAY: i64 = 60;

// time limit, whole seconds
pub const MAX_LIMIT: i64 = 600;

// The limit field that means none.
pub const NO_LIMIT: i64 = 65535;

// A flight (document 02): how many stretches, the acceleration of each, and the whole seconds of each and in total.
pub const MIN_STRETCHES: usize = 1;

pub const MAX_STRETCHES: usize = 64;

pub const MAX_FLIGHT_ACCELERATION: i64 = 2000;

pub const MIN_FLIGHT_ACCELERATION: i64 = -MAX_FLIGHT_ACCELERATION;

pub const MIN_STRETCH_SECONDS: u64 = 1;

pub const MAX_FLIGHT_SECONDS: u64 = 600;

// Is x from one limit to the other, both included?
#[inline(always)]
pub fn within(low: i64, high: i64, x: i64) -> bool
    ensures { result ≡ within low high x }
{
    (low..=high).contains(&x)
}
