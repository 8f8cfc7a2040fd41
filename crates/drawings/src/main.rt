// Draws the questions in each file that an argument names, with four seconds of each. It writes the file's name and first line, which says in words what the cases are,
// and then the number of drawings and of seconds, how many of each differ from those in the file, and how many there are of each kind.
// `cargo run --profile checked --bin drawings ../crates/drawings`, run in `compare/`, writes the files, `args` and `stdout`: the drawings are the independent
// implementation's. The program is proved safe. That it sees a difference is shown by the file `planted`, whose numbers are wrong.
#![tactic(auto)]

ghost use Rattle.std.specs.Prelude.{◌≡◌, ◌+◌, ◌*◌, ◌^◌, ◌<◌, ◌≤◌};

use binding::{DrawingResult, PieceResult, PointResult, screen_drawing, screen_point};
use cases::{encounter_in, numbers_in, question_in, report_arguments, settings_in, whole_cases};
use std::fmt::Display;
use std::{fmt, io};

// Numbers of 8 bytes: the sixteen of the question; the drawing's refusal and its number of pieces, and seven for each of three places; four times a second, and its point's
// refusal, time and height. A float is its bit pattern.
const CASE: usize = 55;

// 256 cases, and a first line of 600 bytes.
const ROOM: usize = 113240;

// What is held against a case is what C and Rust get: `binding`'s structs, with their numbers for kinds and refusals. A piece, a drawing and a point are those structs
// here, with each float by its bit pattern, none where it is no number: by `==` of floats 0 and −0 would be one.
#[derive(Clone, Copy, PartialEq, Eq)]
struct Piece {
    kind: u64,
    seconds: u64,
    remainder: u64,
    divisor: u64,
    square: Option<u64>,
    linear: Option<u64>,
    constant: Option<u64>,
}

#[derive(Clone, Copy, PartialEq, Eq)]
struct Drawing {
    refusal: u64,
    pieces: u64,
    first: Piece,
    second: Piece,
    third: Piece,
}

#[derive(Clone, Copy, PartialEq, Eq)]
struct Point {
    refusal: u64,
    time: Option<u64>,
    height: Option<u64>,
}

// Of a case's four points those that differ, those drawn, and those refused.
#[derive(Clone, Copy, Default)]
struct Points {
    different: u64,
    drawn: u64,
    refused: u64,
}

#[derive(Clone, Copy)]
struct Report {
    cases: u64,
    // Drawings that differ, those of one, two and three pieces, and those refused.
    other_drawings: u64,
    one: u64,
    two: u64,
    three: u64,
    refused: u64,
    // Points that differ, those drawn, and those refused.
    other_points: u64,
    points_drawn: u64,
    points_refused: u64,
    // Bytes of a case that was cut, or of a file longer than the room.
    left_over: usize,
    ghost drawings: { (other_drawings ≤ cases) × (one ≤ cases) × (two ≤ cases) × (three ≤ cases) × (refused ≤ cases) },
    ghost points: { (other_points ≤ 4 * cases) × (points_drawn ≤ 4 * cases) × (points_refused ≤ 4 * cases) },
}

// A float's bit pattern, none where it is no number: such a one is equal to nothing. Those of 0 and −0 differ.
fn pattern(x: f64) -> Option<u64> {
    if x.is_nan() {
        return None;
    }
    Some(x.to_bits())
}

impl From<PieceResult> for Piece {
    fn from(found: PieceResult) -> Piece {
        Piece {
            kind: found.kind,
            seconds: found.seconds,
            remainder: found.remainder,
            divisor: found.divisor,
            square: pattern(found.square),
            linear: pattern(found.linear),
            constant: pattern(found.constant),
        }
    }
}

// A piece in a case, whose floats are all numbers.
impl From<[u64; 7]> for Piece {
    fn from(numbers: [u64; 7]) -> Piece {
        let [kind, seconds, remainder, divisor, square, linear, constant] = numbers;
        Piece {
            kind,
            seconds,
            remainder,
            divisor,
            square: Some(square),
            linear: Some(linear),
            constant: Some(constant),
        }
    }
}

impl From<DrawingResult> for Drawing {
    fn from(found: DrawingResult) -> Drawing {
        Drawing {
            refusal: found.refusal,
            pieces: found.pieces,
            first: Piece::from(found.first),
            second: Piece::from(found.second),
            third: Piece::from(found.third),
        }
    }
}

impl From<PointResult> for Point {
    fn from(found: PointResult) -> Point {
        Point {
            refusal: found.refusal,
            time: pattern(found.time),
            height: pattern(found.height),
        }
    }
}

fn expected_drawing(case: &[u64; CASE]) -> Drawing {
    let (places, _) = case[18..39].as_chunks::<7>();
    Drawing {
        refusal: case[16],
        pieces: case[17],
        first: Piece::from(places[0]),
        second: Piece::from(places[1]),
        third: Piece::from(places[2]),
    }
}

// A point is drawn where the refusal that C and Rust get is 0.
fn points_of(case: &[u64; CASE]) -> Points
    ensures { (result.different ≤ 4) × (result.drawn ≤ 4) × (result.refused ≤ 4) }
{
    let encounter = encounter_in(case);
    let settings = settings_in(case);
    let question = question_in(case);
    let mut points = Points::default();
    let (expected, _) = case[39..].as_chunks::<4>();
    for [second, refusal, time, height] in expected {
        let found = Point::from(screen_point(encounter, settings, question, *second));
        let expected = Point {
            refusal: *refusal,
            time: Some(*time),
            height: Some(*height),
        };
        points.different += u64::from(found != expected);
        points.drawn += u64::from(found.refusal == 0);
        points.refused += u64::from(found.refusal != 0);
    }
    points
}

impl Report {
    // Draws a case, and counts it.
    fn count(&mut self, case: &[u64; CASE])
        requires { 4 * (self.old.cases + 1) < 2 ^ 64 }
        ensures { self.new.cases ≡ self.old.cases + 1 }
    {
        let found = Drawing::from(screen_drawing(
            encounter_in(case),
            settings_in(case),
            question_in(case),
        ));
        let points = points_of(case);
        self.cases += 1;
        self.other_drawings += u64::from(found != expected_drawing(case));
        self.one += u64::from(found.pieces == 1);
        self.two += u64::from(found.pieces == 2);
        self.three += u64::from(found.pieces == 3);
        self.refused += u64::from(found.pieces == 0);
        self.other_points += points.different;
        self.points_drawn += points.drawn;
        self.points_refused += points.refused;
    }
}

impl Display for Report {
    fn fmt<W: fmt::Write>(&self, f: &mut fmt::Formatter<W>) -> fmt::Result {
        write!(
            f,
            "  drawings {}, different {}; of one piece {}, two {}, three {}, refused {}; seconds different {}, drawn {}, refused {}; bytes left over {}",
            self.cases,
            self.other_drawings,
            self.one,
            self.two,
            self.three,
            self.refused,
            self.other_points,
            self.points_drawn,
            self.points_refused,
            self.left_over
        )
    }
}

// Draws all whole cases. Zeros are written out, as a struct with ghost fields has no derived Default.
// (`vectors` has this loop too, of three lines. One function of both would want a trait of their reports, with the number of cases as a ghost member, as no count may overflow, and an
// impl in each: more than the two loops.)
fn report_on(bytes: &[u8]) -> Report {
    let (cases, left_over) = whole_cases::<CASE>(bytes);
    let mut report = Report {
        cases: 0,
        other_drawings: 0,
        one: 0,
        two: 0,
        three: 0,
        refused: 0,
        other_points: 0,
        points_drawn: 0,
        points_refused: 0,
        left_over,
    };
    for case in cases {
        report.count(&numbers_in(case));
    }
    report
}

fn main(rt: HostRuntime) -> io::Result<()> {
    report_arguments(&rt, &mut rt.stdout(), &mut [0u8; ROOM], &report_on)
}
