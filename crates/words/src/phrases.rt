// How times, verdicts, refusals and records are printed.

ghost use Rattle.std.specs.Prelude.{Some};
ghost use Rattle.words.specs.Texts.{encounter_text, time_text};

use instant::Time;
use limits::NO_LIMIT;
use question::{Encounter, Question, Refusal};
use record::Record;
use std::fmt;
use verdict::{ClearSides, Verdict};

// A value that is printed in words.
#[derive(Clone, Copy)]
pub struct Words<T>(pub T);

// "24 3/8 s", or "27 s" where the remainder is 0.
impl fmt::Display for Words<Time> {
    ghost output = { λ words. Some (time_text words.0) };

    fn fmt<W: fmt::Write>(&self, f: &mut fmt::Formatter<W>) -> fmt::Result {
        let Words(
            Time {
                seconds,
                remainder,
                divisor,
            },
        ) = *self;
        if remainder == 0 {
            write!(f, "{seconds} s")
        } else {
            write!(f, "{seconds} {remainder}/{divisor} s")
        }
    }
}

// A conflict has its time, or the times of both sides.
impl fmt::Display for Words<Verdict> {
    fn fmt<W: fmt::Write>(&self, f: &mut fmt::Formatter<W>) -> fmt::Result {
        match self.0 {
            Verdict::Clear(ClearSides::Lower) => write!(f, "clear on the lower side"),
            Verdict::Clear(ClearSides::Upper) => write!(f, "clear on the upper side"),
            Verdict::Clear(ClearSides::Both) => write!(f, "clear on both sides"),
            Verdict::Conflict(time) => write!(f, "conflict at {}", Words(time)),
            Verdict::Conflicts(lower, upper) => write!(
                f,
                "conflict on both sides: lower at {}, upper at {}",
                Words(lower),
                Words(upper)
            ),
        }
    }
}

// What a refusal means. No sheet is refused for its flight.
fn meaning(why: Refusal) -> &'static str {
    match why {
        Refusal::EncounterOutside => "an encounter field is outside its limits",
        Refusal::PuckOutside => "the puck's radius or half height is outside its limits",
        Refusal::DelayAccelerationOutside => "the delay acceleration is outside its limits",
        Refusal::SidesOrSenseUnknown => "the sides are not 1 or 2, or the sense is not 0 or 1",
        Refusal::TargetOutside =>
            "the target or, two-sided, the upper target is outside its limits",
        Refusal::TimesOutside => "the delay or the limit is outside its limits",
        Refusal::NoEncounter => "no encounter was accepted before the question",
        Refusal::CodeUnknown => "the code is not one of 1 to 18",
        Refusal::CodeNotJudged => "codes 17 and 18 have a name and are not judged",
        Refusal::SheetTooLong => "it is longer than 8192 bytes",
        Refusal::KindUnknown => "a record has an unknown kind",
        Refusal::RecordCutShort => "a record is cut short",
        Refusal::AreaTooShort => "the answer area is shorter than the answer",
        Refusal::StrengthOutside =>
            "a strength is outside its limits, or the upper strength is below the strength",
        Refusal::UpperTargetBelow => "the upper target falls short of the target in the sense",
        Refusal::UpperFieldsUsed => "the question is one-sided and an upper field is not 0",
        Refusal::NeverIssued =>
            "code 10 is not issued to an aircraft going down, nor code 9 to one going up",
        Refusal::FlightOutside => "a number of the flight is outside its limits",
    }
}

// Its number, and what that means.
impl fmt::Display for Words<Refusal> {
    fn fmt<W: fmt::Write>(&self, f: &mut fmt::Formatter<W>) -> fmt::Result {
        let number = self.0.number();
        write!(f, "refused, {number}: {}", meaning(self.0))
    }
}

// An answer.
impl fmt::Display for Words<Result<Verdict, Refusal>> {
    fn fmt<W: fmt::Write>(&self, f: &mut fmt::Formatter<W>) -> fmt::Result {
        match self.0 {
            Ok(verdict) => write!(f, "{}", Words(verdict)),
            Err(why) => write!(f, "{}", Words(why)),
        }
    }
}

// The numbers that an answer rests on; `specs/` says what is printed of them.
impl fmt::Display for Words<Encounter> {
    ghost output = { λ words. Some (encounter_text words.0) };

    fn fmt<W: fmt::Write>(&self, f: &mut fmt::Formatter<W>) -> fmt::Result {
        let Encounter {
            distance,
            height,
            closing_speed,
            speed,
            intruder_speed,
        } = self.0;
        write!(
            f,
            "r {distance}, h {height}, c {closing_speed}, v {speed}, vi {intruder_speed}"
        )
    }
}

// The catalogue's names; codes outside it have none.
fn code_name(code: u8) -> Option<&'static str> {
    match code {
        1 => Some("DNC2000"),
        2 => Some("DND2000"),
        3 => Some("DNC1000"),
        4 => Some("DND1000"),
        5 => Some("DNC500"),
        6 => Some("DND500"),
        7 => Some("DNC"),
        8 => Some("DND"),
        9 => Some("MDES"),
        10 => Some("MCL"),
        11 => Some("DES1500"),
        12 => Some("CL1500"),
        13 => Some("SDES1500"),
        14 => Some("SCL1500"),
        15 => Some("SDES2500"),
        16 => Some("SCL2500"),
        17 => Some("COC"),
        18 => Some("MTLO"),
        _ => None,
    }
}

// A code, with its name if it has one.
#[derive(Clone, Copy)]
struct Code(u8);

impl fmt::Display for Code {
    fn fmt<W: fmt::Write>(&self, f: &mut fmt::Formatter<W>) -> fmt::Result {
        let Code(code) = *self;
        match code_name(code) {
            Some(name) => write!(f, "code {code} {name}"),
            None => write!(f, "code {code}"),
        }
    }
}

// A question's limit, which may be none. Limit, sides and sense each have a match of their own, where all that is said of the number stands together: a number
// that has no name gets a word before it, and the limit a unit after it, which one type for all three would take from each caller.
#[derive(Clone, Copy)]
struct Limit(i64);

impl fmt::Display for Limit {
    fn fmt<W: fmt::Write>(&self, f: &mut fmt::Formatter<W>) -> fmt::Result {
        match self.0 {
            NO_LIMIT => write!(f, "no limit"),
            limit => write!(f, "limit {limit} s"),
        }
    }
}

// A free question's sides, which may be neither 1 nor 2.
#[derive(Clone, Copy)]
struct Sides(i64);

impl fmt::Display for Sides {
    fn fmt<W: fmt::Write>(&self, f: &mut fmt::Formatter<W>) -> fmt::Result {
        match self.0 {
            1 => write!(f, "one-sided"),
            2 => write!(f, "two-sided"),
            sides => write!(f, "sides {sides}"),
        }
    }
}

// Its sense, which may be neither 0 nor 1.
#[derive(Clone, Copy)]
struct Sense(i64);

impl fmt::Display for Sense {
    fn fmt<W: fmt::Write>(&self, f: &mut fmt::Formatter<W>) -> fmt::Result {
        match self.0 {
            0 => write!(f, "descend"),
            1 => write!(f, "climb"),
            sense => write!(f, "sense {sense}"),
        }
    }
}

// A free question's fields.
impl fmt::Display for Words<Question> {
    fn fmt<W: fmt::Write>(&self, f: &mut fmt::Formatter<W>) -> fmt::Result {
        let Question {
            sides,
            sense,
            target,
            upper_target,
            strength,
            upper_strength,
            delay,
            limit,
        } = self.0;
        write!(
            f,
            "{}, {}, target {target}, upper target {upper_target}, strength {strength}, \
            upper strength {upper_strength}, delay {delay} s, {}",
            Sides(sides),
            Sense(sense),
            Limit(limit)
        )
    }
}

// A record as it was read.
impl fmt::Display for Words<Record> {
    fn fmt<W: fmt::Write>(&self, f: &mut fmt::Formatter<W>) -> fmt::Result {
        match self.0 {
            Record::Encounter(encounter) => write!(f, "encounter: {}", Words(encounter)),
            Record::Puck(radius, half_height) => write!(f, "puck: p {radius}, k {half_height}"),
            Record::DelayAcceleration(e) => write!(f, "delay acceleration: e {e}"),
            Record::Coded(code, limit) => write!(
                f,
                "coded question: {}, {}",
                Code(code),
                Limit(limit)
            ),
            Record::Free(question) => write!(f, "free question: {}", Words(question)),
        }
    }
}
