// How it is said what a verdict means; `specs/` says it too.

ghost use Rattle.std.specs.Prelude.{◌≡◌, Some};
ghost use Rattle.words.specs.MeaningTexts.{feet_text, direction_text, moment_text, tenths_text, gap_text, relation_text, explained_text, path_text, limit_text, clear_text, away_text, meaning_text};

use crate::phrases::Words;
use instant::{Time, lowest_terms};
use meaning::{Direction, Explained, Finding, Gap, Meaning, Moment, Nearness, clear_direction};
use path::Side;
use std::fmt;
use verdict::ClearSides;

// A length in grains, of which a foot has 60: "100 ft", "116 2/3 ft", "2/3 ft".
#[derive(Clone, Copy)]
struct Feet(u64);

impl fmt::Display for Feet {
    ghost output = { λ feet. Some (feet_text feet.0) };

    fn fmt<W: fmt::Write>(&self, f: &mut fmt::Formatter<W>) -> fmt::Result {
        let Time {
            seconds: feet,
            remainder,
            divisor,
        } = lowest_terms(self.0, 60);
        if remainder == 0 {
            write!(f, "{feet} ft")
        } else if feet == 0 {
            write!(f, "{remainder}/{divisor} ft")
        } else {
            write!(f, "{feet} {remainder}/{divisor} ft")
        }
    }
}

impl fmt::Display for Words<Direction> {
    ghost output = { λ words. Some (direction_text words.0) };

    fn fmt<W: fmt::Write>(&self, f: &mut fmt::Formatter<W>) -> fmt::Result {
        match self.0 {
            Direction::Above => write!(f, "above"),
            Direction::Below => write!(f, "below"),
        }
    }
}

// What kind of moment a time shown is, and the intruder as the subject of what follows.
#[derive(Clone, Copy)]
struct Moments {
    moment: Moment,
    time: Time,
    radius: u64,
    limit: Option<u64>,
}

impl fmt::Display for Moments {
    ghost output = { λ shown. Some (moment_text shown.radius shown.limit shown.time shown.moment) };

    fn fmt<W: fmt::Write>(&self, f: &mut fmt::Formatter<W>) -> fmt::Result {
        let Moments {
            moment,
            time,
            radius,
            limit,
        } = *self;
        let whole = time.remainder == 0;
        match moment {
            Moment::WindowStart if whole && time.seconds == 0 => write!(
                f,
                "at the start; the intruder"
            ),
            Moment::WindowStart => write!(f, "as the intruder comes within {}; it", Feet(radius)),
            Moment::DelayEnd => write!(f, "as the delay ends; the intruder"),
            Moment::TurningInstant => write!(
                f,
                "as the ownship's vertical speed comes to the intruder's; the intruder"
            ),
            Moment::WindowEnd if whole && limit == Some(time.seconds) => write!(
                f,
                "at the time limit; the intruder"
            ),
            Moment::WindowEnd => write!(
                f,
                "at the last instant within {}; the intruder",
                Feet(radius)
            ),
            Moment::FirstWholeSecond => write!(
                f,
                "the first whole second in conflict; the intruder"
            ),
        }
    }
}

// Whole tenths of a foot.
#[derive(Clone, Copy)]
struct Tenths(u64);

impl fmt::Display for Tenths {
    ghost output = { λ tenths. Some (tenths_text tenths.0) };

    fn fmt<W: fmt::Write>(&self, f: &mut fmt::Formatter<W>) -> fmt::Result {
        if self.0 == 0 {
            return write!(f, "less than 0.1 ft");
        }
        write!(f, "{}.{} ft", self.0 / 10, self.0 % 10)
    }
}

// Where the intruder is, with the puck's half height.
#[derive(Clone, Copy)]
struct Gaps {
    gap: Gap,
    half_height: u64,
}

impl fmt::Display for Gaps {
    ghost output = { λ shown. Some (gap_text shown.half_height shown.gap) };

    fn fmt<W: fmt::Write>(&self, f: &mut fmt::Formatter<W>) -> fmt::Result {
        let Gaps { gap, half_height } = *self;
        match (gap.direction, gap.nearness) {
            (None, _) => write!(f, "level with the ownship"),
            (Some(direction), Nearness::Edge) => write!(
                f,
                "{} {}",
                Feet(half_height),
                Words(direction)
            ),
            (Some(direction), _) => write!(f, "{} {}", Tenths(gap.tenths), Words(direction)),
        }
    }
}

// What that is by the puck's half height, and so why it is a conflict.
#[derive(Clone, Copy)]
struct Relation {
    nearness: Nearness,
    half_height: u64,
    clear: Direction,
}

impl fmt::Display for Relation {
    ghost output = { λ shown. Some (relation_text shown.half_height shown.clear shown.nearness) };

    fn fmt<W: fmt::Write>(&self, f: &mut fmt::Formatter<W>) -> fmt::Result {
        let Relation {
            nearness,
            half_height,
            clear,
        } = *self;
        match nearness {
            Nearness::Closer => write!(f, ", closer than {}", Feet(half_height)),
            Nearness::Edge => write!(f, ", on the puck's edge"),
            Nearness::Farther => write!(
                f,
                ", where only more than {} {} is clear",
                Feet(half_height),
                Words(clear)
            ),
        }
    }
}

// The conflict of a side: "as the intruder comes within 500 ft; it is 94.9 ft above, closer than 100 ft".
#[derive(Clone, Copy)]
struct Conflict(Meaning, Side, Explained);

impl fmt::Display for Conflict {
    ghost output = { λ conflict. Some (explained_text conflict.0 conflict.1 conflict.2) };

    fn fmt<W: fmt::Write>(&self, f: &mut fmt::Formatter<W>) -> fmt::Result {
        let Conflict(meaning, side, explained) = *self;
        let moments = Moments {
            moment: explained.moment,
            time: explained.time,
            radius: meaning.radius,
            limit: meaning.limit,
        };
        let gaps = Gaps {
            gap: explained.gap,
            half_height: meaning.half_height,
        };
        let relation = Relation {
            nearness: explained.gap.nearness,
            half_height: meaning.half_height,
            clear: clear_direction(side, meaning.sense),
        };
        write!(f, "{moments} is {gaps}{relation}")
    }
}

// Which path is meant, of the two of a two-sided question.
#[derive(Clone, Copy)]
struct OfPath {
    two_sided: bool,
    side: Side,
}

impl fmt::Display for OfPath {
    ghost output = { λ path. Some (path_text path.two_sided path.side) };

    fn fmt<W: fmt::Write>(&self, f: &mut fmt::Formatter<W>) -> fmt::Result {
        match self.side {
            Side::Lower if self.two_sided => write!(f, " the lower path"),
            Side::Upper if self.two_sided => write!(f, " the upper path"),
            _ => Ok(()),
        }
    }
}

// Until when that is said, where a limit is set.
#[derive(Clone, Copy)]
struct UpTo(Option<u64>);

impl fmt::Display for UpTo {
    ghost output = { λ limit. Some (limit_text limit.0) };

    fn fmt<W: fmt::Write>(&self, f: &mut fmt::Formatter<W>) -> fmt::Result {
        match self.0 {
            Some(_) => write!(f, ", up to the limit"),
            None => Ok(()),
        }
    }
}

// A side that is clear: "the intruder is more than 100 ft below whenever it is within 500 ft".
#[derive(Clone, Copy)]
struct Clear(Meaning, Side);

impl fmt::Display for Clear {
    ghost output = { λ clear. Some (clear_text clear.0 clear.1) };

    fn fmt<W: fmt::Write>(&self, f: &mut fmt::Formatter<W>) -> fmt::Result {
        let Clear(meaning, side) = *self;
        let direction = clear_direction(side, meaning.sense);
        let path = OfPath {
            two_sided: meaning.two_sided,
            side,
        };
        write!(
            f,
            "the intruder is more than {} {}{path} whenever it is within {}{}",
            Feet(meaning.half_height),
            Words(direction),
            Feet(meaning.radius),
            UpTo(meaning.limit)
        )
    }
}

// An intruder that does not come near at all.
#[derive(Clone, Copy)]
struct Away(Meaning);

impl fmt::Display for Away {
    ghost output = { λ away. Some (away_text away.0.radius away.0.limit) };

    fn fmt<W: fmt::Write>(&self, f: &mut fmt::Formatter<W>) -> fmt::Result {
        let radius = Feet(self.0.radius);
        match self.0.limit {
            Some(_) => write!(
                f,
                "the intruder does not come within {radius} up to the limit"
            ),
            None => write!(f, "the intruder never comes within {radius}"),
        }
    }
}

// What a verdict means: a line, or two, one for each of two sides that are alike.
impl fmt::Display for Words<Meaning> {
    ghost output = { λ words. Some (meaning_text words.0) };

    fn fmt<W: fmt::Write>(&self, f: &mut fmt::Formatter<W>) -> fmt::Result {
        let meaning = self.0;
        let lower_clear = Clear(meaning, Side::Lower);
        let upper_clear = Clear(meaning, Side::Upper);
        match meaning.finding {
            Finding::NeverNear => write!(f, "{}", Away(meaning)),
            Finding::Clear(ClearSides::Lower) => write!(f, "{lower_clear}"),
            Finding::Clear(ClearSides::Upper) => write!(f, "{upper_clear}"),
            Finding::Clear(ClearSides::Both) => write!(f, "{lower_clear}\n    {upper_clear}"),
            Finding::Conflict(lower) => write!(f, "{}", Conflict(meaning, Side::Lower, lower)),
            Finding::Conflicts(lower, upper) => write!(
                f,
                "lower: {}\n    upper: {}",
                Conflict(meaning, Side::Lower, lower),
                Conflict(meaning, Side::Upper, upper)
            ),
        }
    }
}
