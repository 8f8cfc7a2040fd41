// Judges the flights in each file that an argument names. It writes the file's name and first line, which says in words what the flights are, and then the number of flights,
// how many answers differ from those in the file, and how many there are of each kind.
// `cargo run --profile checked --bin flights ../crates/flights`, run in `compare/`, writes the files, `args` and `stdout`: the answers are the independent
// implementation's. The program is proved safe. That it sees a difference is shown by the file `planted`, whose answers are wrong.
#![tactic(auto)]

ghost use Rattle.std.specs.Prelude.{◌≡◌, ◌+◌, ◌^◌, ◌<◌, ◌≤◌, length, IfSome};
ghost use Rattle.flights.specs.declared.TheConstants.{FLIGHT_ROOM};

use binding::FlightResult;
use candidate::{Flown, OneSidedAdvice, judge_flight};
use cases::{encounter_in, numbers_in, report_arguments, settings_in};
use question::Refusal;
use std::fmt::Display;
use std::{fmt, io};

// Numbers of 8 bytes: the thirteen of encounter, puck, e and advice; how many numbers the flight has, and how many of them follow, the others being 0; the four of the
// answer. Then the flight's numbers.
const HEAD: usize = 19;

// The most numbers that a flight may have here.
const FLIGHT_ROOM: usize = 65536;

const ROOM: usize = 131072;

// A case's first numbers, how many its flight has, and those of the flight that follow.
#[derive(Clone, Copy)]
struct Case<'a> {
    head: [u64; HEAD],
    count: usize,
    given: &'a [[u8; 8]],
    ghost room: { count ≤ FLIGHT_ROOM },
}

#[derive(Clone, Copy)]
struct Report {
    flights: u64,
    different: u64,
    // Flights that obey and don't; that are inside and never are; and those refused.
    obeying: u64,
    not_obeying: u64,
    inside: u64,
    never: u64,
    refused: u64,
    // Bytes of a case that was cut, or of what is none, or of a file longer than the room.
    left_over: usize,
    ghost within: { (different ≤ flights) × (obeying ≤ flights) × (not_obeying ≤ flights) × (inside ≤ flights) × (never ≤ flights) × (refused ≤ flights) },
}

// The case at the start, and what follows it; none where there is no whole one.
fn split_case(numbers: &[[u8; 8]]) -> Option<(Case<'_>, &[[u8; 8]])>
    ensures { IfSome result (λ split. length split.1.now < length numbers.now) }
{
    let (head, rest) = numbers.split_first_chunk::<HEAD>()?;
    let head = numbers_in(head);
    let count = head[13] as usize;
    let given = head[14] as usize;
    if FLIGHT_ROOM < count || count < given {
        return None;
    }
    if rest.len() < given {
        return None;
    }
    let (given, rest) = rest.split_at(given);
    Some((Case { head, count, given }, rest))
}

fn advice_in(head: &[u64; HEAD]) -> OneSidedAdvice {
    OneSidedAdvice {
        sense: head[8].cast_signed(),
        target: head[9].cast_signed(),
        strength: head[10].cast_signed(),
        delay: head[11].cast_signed(),
        limit: head[12].cast_signed(),
    }
}

// The numbers stand in a room for the longest flight, as there is no heap; the flight is the first `count` of them.
fn answer_to(case: Case<'_>) -> Result<Flown, Refusal> {
    let mut room = [0i64; FLIGHT_ROOM];
    for (number, bytes) in room.iter_mut().zip(case.given) {
        *number = i64::from_be_bytes(*bytes);
    }
    judge_flight(
        encounter_in(&case.head),
        settings_in(&case.head),
        advice_in(&case.head),
        &room[..case.count],
    )
}

fn expected(head: &[u64; HEAD]) -> FlightResult {
    FlightResult {
        refusal: head[15],
        obeys: head[16],
        inside: head[17],
        second: head[18],
    }
}

impl Report {
    // Judges the flight of a case, and counts it.
    fn count(&mut self, case: Case<'_>)
        requires { self.old.flights + 1 < 2 ^ 64 }
        ensures { self.new.flights ≡ self.old.flights + 1 }
    {
        let answer = answer_to(case);
        self.flights += 1;
        self.different += u64::from(FlightResult::from(answer) != expected(&case.head));
        match answer {
            Ok(flown) => {
                self.obeying += u64::from(flown.obeys);
                self.not_obeying += u64::from(!flown.obeys);
                self.inside += u64::from(flown.inside.is_some());
                self.never += u64::from(flown.inside.is_none());
            }
            Err(_) => self.refused += 1,
        }
    }
}

impl Display for Report {
    fn fmt<W: fmt::Write>(&self, f: &mut fmt::Formatter<W>) -> fmt::Result {
        write!(
            f,
            "  flights {}, different {}; obeying {}, not {}; inside {}, never {}; refused {}; bytes left over {}",
            self.flights,
            self.different,
            self.obeying,
            self.not_obeying,
            self.inside,
            self.never,
            self.refused,
            self.left_over
        )
    }
}

// Judges all whole cases. Zeros are written out, as a struct with a ghost field has no derived Default.
fn report_on(bytes: &[u8]) -> Report {
    let mut report = Report {
        flights: 0,
        different: 0,
        obeying: 0,
        not_obeying: 0,
        inside: 0,
        never: 0,
        refused: 0,
        left_over: 0,
    };
    let (mut rest, odd) = bytes.as_chunks::<8>();
    while let Some((case, after)) = split_case(rest) {
        report.count(case);
        rest = after;
    }
    report.left_over = rest.len() * 8 + odd.len();
    report
}

fn main(rt: HostRuntime) -> io::Result<()> {
    report_arguments(&rt, &mut rt.stdout(), &mut [0u8; ROOM], &report_on)
}
