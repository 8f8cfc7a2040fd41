// A flight flown second by second: whether it obeys, and in which second it is first inside the puck. At most 600 seconds and the last instant; `second` tests
// each.
#![tactic(auto)]

ghost use Rattle.std.specs.Prelude.{◌≡◌, true, ◌+◌, ◌<◌};
ghost use Rattle.std.specs.Iterator.{YieldsFirstBy, item_count};
ghost use Rattle.std.specs.Option.{ForSome};
ghost use Rattle.flight.specs.HandedIn.{flight_of, numbers_within};
ghost use Rattle.flight.specs.FlightLimits.{stretch_within};
ghost use Rattle.flight.specs.SensedFlight.{sensed_stretch, sensed_flight};
ghost use Rattle.flight.specs.inner.Tests.{obeys_test, first_inside};
ghost use Rattle.flown.specs.inner.Places.{motion_after, BeginsAt, PlaceAt, seen};

use advisory::Sense;
use flight::Stretch;
use path::SizedQuestion;
use second::{Motion, Second, crosses_in_second, inside_at, obeys_in_second};
use sensed::sign_of;
use stretches::Stretches;

// A flight within its limits, and the question of which it is judged.
#[derive(Clone, Copy)]
pub struct Flight<'a> {
    pub question: SizedQuestion,
    pub sense: Sense,
    pub numbers: &'a [i64],
    pub ghost within: { numbers_within numbers.now ≡ true },
}

// A whole second of a flight, what is left of the stretch that owns it, and the stretches after that. At the flight's end nothing is left. (That it is a place of the flight is a clause of what gives it:
// to keep that, each place would carry the flight.)
#[derive(Clone, Copy)]
struct Place<'a> {
    second: Second,
    left: u64,
    later: Stretches<'a>,
}

// The stretch in the sense.
fn sensed_stretch(sense: Sense, stretch: Stretch) -> Stretch
    requires { stretch_within stretch ≡ true }
    ensures { result ≡ sensed_stretch sense stretch }
{
    Stretch {
        acceleration: sign_of(sense) * stretch.acceleration,
        ..stretch
    }
}

// The motion a second later, with the same acceleration.
fn motion_after(second: Second) -> Motion
    ensures { result ≡ motion_after second.motion }
{
    let now = second.motion;
    Motion {
        height: now.height + 2 * now.speed + now.acceleration,
        speed: now.speed + now.acceleration,
        ..now
    }
}

impl<'a> Flight<'a> {
    // Where the first of the stretches that are left begins, or the flight's end, which has no acceleration.
    fn begin(self, n: u64, motion: Motion, left: Stretches<'a>) -> Place<'a>
        requires { BeginsAt self.question.sensed self.sense self.numbers.now n motion left.0.now }
        ensures { (result.second.n ≡ n) × PlaceAt self.entry.question.sensed self.entry.sense self.entry.numbers.now result }
    {
        let mut later = left;
        let Some(stretch) = later.next() else {
            let motion = Motion {
                acceleration: 0,
                ..motion
            };
            return Place {
                second: Second { n, motion },
                left: 0,
                later,
            };
        };
        let stretch = sensed_stretch(self.sense, stretch);
        let motion = Motion {
            acceleration: stretch.acceleration,
            ..motion
        };
        Place {
            second: Second { n, motion },
            left: stretch.seconds,
            later,
        }
    }

    fn start(self) -> Place<'a>
        ensures { (result.second.n ≡ 0) × PlaceAt self.entry.question.sensed self.entry.sense self.entry.numbers.now result }
    {
        let motion = Motion {
            height: 0,
            speed: self.question.sensed.speed,
            acceleration: 0,
        };
        self.begin(0, motion, Stretches(self.numbers))
    }

    // A second later.
    fn after(self, place: Place<'a>) -> Place<'a>
        requires at { PlaceAt self.question.sensed self.sense self.numbers.now place }
        requires going { 0 < place.left }
        ensures { (result.second.n ≡ place.entry.second.n + 1) × PlaceAt self.entry.question.sensed self.entry.sense self.entry.numbers.now result }
    {
        let n = place.second.n + 1;
        let motion = motion_after(place.second);
        let left = place.left - 1;
        if left == 0 {
            return self.begin(n, motion, place.later);
        }
        Place {
            second: Second { n, motion },
            left,
            ..place
        }
    }
}

// The places of a flight that are left, a second apart, by the first of them; the last is the flight's end.
#[derive(Drop)]
struct Places<'a> {
    flight: Flight<'a>,
    place: Option<Place<'a>>,
    ghost at: { ForSome place (λ there. PlaceAt flight.question.sensed flight.sense flight.numbers.now there) },
}

impl<'a> Iterator for Places<'a> {
    type Item = Place<'a>;

    ghost use Rattle.flown.specs.inner.LeftPlaces.{left_places};

    ghost next_gives = { YieldsFirstBy seen left_places };

    ghost remaining = { item_count left_places };

    fn next(&mut self) -> Option<Place<'a>> {
        let place = self.place.take()?;
        if place.left != 0 {
            self.place = Some(self.flight.after(place));
        }
        Some(place)
    }
}

impl<'a> Flight<'a> {
    ghost use Rattle.flown.specs.inner.Places.{flown};
    ghost use Rattle.flown.specs.inner.LeftPlaces.{left_places, to_the_end};

    fn places(self) -> Places<'a>
        ensures { left_places result ≡ to_the_end self.entry.question.sensed (flown self.entry.sense self.entry.numbers.now) 0 }
    {
        Places {
            flight: self,
            place: Some(self.start()),
        }
    }
}

// Does the flight obey? Each of its seconds must; its last instant is tested by neither rule.
pub fn flight_obeys(flight: Flight<'_>) -> bool
    ensures { result ≡ obeys_test flight.entry.question.sensed (sensed_flight flight.entry.sense (flight_of flight.entry.numbers.now)) }
{
    flight.places().all(|place| place.left == 0 || obeys_in_second(flight.question, place.second))
}

// The first second with a time inside the puck; of the flight's end the instant alone. (Never inline: in the body of its caller the loop keeps its places in memory, and takes a quarter more
// instructions.)
#[inline(never)]
pub fn first_inside(flight: Flight<'_>) -> Option<u64>
    ensures { result ≡ first_inside flight.entry.question.sensed (sensed_flight flight.entry.sense (flight_of flight.entry.numbers.now)) }
{
    flight
        .places()
        .find(|place| {
            if place.left == 0 {
                inside_at(flight.question, place.second)
            } else {
                crosses_in_second(flight.question, place.second)
            }
        })
        .map(|place| place.second.n)
}
