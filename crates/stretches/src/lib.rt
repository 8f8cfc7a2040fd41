// A flight's numbers, as they are handed in: pairs, each a stretch's acceleration and seconds. `flight` says which flight they are and which are outside the
// limits; here are the tests and the stretches.
#![tactic(auto)]

ghost use Rattle.std.specs.Prelude.{◌≡◌, ◌&&◌, ◌≤◌, leb, length};
ghost use Rattle.std.specs.Iterator.{YieldsFirst, item_count};
ghost use Rattle.limits.specs.Limits.{max_stretches, max_flight_seconds};
ghost use Rattle.flight.specs.Flight.{duration};
ghost use Rattle.flight.specs.FlightLimits.{stretch_within, stretches_within, count_within};
ghost use Rattle.flight.specs.HandedIn.{flight_of, paired, numbers_within};

use flight::Stretch;
use limits::{
    MAX_FLIGHT_ACCELERATION, MAX_FLIGHT_SECONDS, MAX_STRETCHES, MIN_FLIGHT_ACCELERATION,
    MIN_STRETCH_SECONDS, MIN_STRETCHES, within,
};
use window::positive_part;

// The stretches of a flight's numbers, in flight order, a pair for each: those that are left. A number without its pair is none.
#[derive(Clone, Copy)]
pub struct Stretches<'a>(pub &'a [i64]);

impl<'a> Iterator for Stretches<'a> {
    type Item = Stretch;

    ghost next_gives = { YieldsFirst (λ s. flight_of s.0.now) };

    ghost remaining = { item_count (λ s. flight_of s.0.now) };

    fn next(&mut self) -> Option<Stretch> {
        let [acceleration, seconds, later @ ..] = self.0 else {
            return None;
        };
        self.0 = later;
        Some(Stretch {
            acceleration: *acceleration,
            seconds: positive_part(*seconds),
        })
    }
}

fn stretch_within(stretch: Stretch) -> bool
    ensures { result ≡ stretch_within stretch }
{
    within(
        MIN_FLIGHT_ACCELERATION,
        MAX_FLIGHT_ACCELERATION,
        stretch.acceleration,
    ) & (MIN_STRETCH_SECONDS..=MAX_FLIGHT_SECONDS).contains(&stretch.seconds)
}

// Whether the numbers are pairs, and how many.
fn count_within(flight: &[i64]) -> bool
    ensures { result ≡ (paired flight.now && count_within (flight_of flight.now)) }
{
    let count = flight.len() / 2;
    (flight.len() % 2 == 0) & (MIN_STRETCHES..=MAX_STRETCHES).contains(&count)
}

// Whether each of few stretches is within its limits, and all together.
fn stretches_within(flight: &[i64]) -> bool
    requires { length (flight_of flight.now) ≤ max_stretches }
    ensures { result ≡ (stretches_within (flight_of flight.now) && leb (duration (flight_of flight.now)) max_flight_seconds) }
{
    let mut total: u64 = 0;
    for stretch in Stretches(flight) {
        if !stretch_within(stretch) {
            return false;
        }
        total += stretch.seconds;
    }
    total <= MAX_FLIGHT_SECONDS
}

// Refusal 18's test: any numbers, as many as there are.
#[tactic(auto, unfolding(flight::specs::FlightLimits::flight_within))]
pub fn flight_within(flight: &[i64]) -> bool
    ensures { result ≡ numbers_within flight.now }
{
    count_within(flight) && stretches_within(flight)
}
