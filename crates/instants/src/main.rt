// Judges the instants in each file that an argument names. It writes the file's name and first line, which says in words what the instants are, and then the number of instants,
// how many answers differ from those in the file, and how many there are of each kind.
// `cargo run --profile checked --bin instants ../crates/instants`, run in `compare/`, writes the files, `args` and `stdout`: the answers are the independent
// implementation's. The program is proved safe. That it sees a difference is shown by the file `planted`, whose answers are wrong.
#![tactic(auto)]

ghost use Rattle.std.specs.Prelude.{◌≡◌, ◌+◌, ◌^◌, ◌<◌, ◌≤◌};

use binding::InstantResult;
use cases::{encounter_in, numbers_in, question_in, report_arguments, settings_in, whole_cases};
use instant::Instant;
use named_instant::{InstantAnswer, judge_at};
use question::Refusal;
use std::fmt::Display;
use std::{fmt, io};

// Numbers of 8 bytes: the sixteen of the question; n and m; the five of the answer.
const CASE: usize = 23;

// 512 cases, and a first line of 600 bytes.
const ROOM: usize = 94808;

#[derive(Clone, Copy)]
struct Report {
    instants: u64,
    different: u64,
    // Instants that are judged, those of them in the window, and conflict times on each side; those out of reach; and refused questions.
    judged: u64,
    in_window: u64,
    lower: u64,
    upper: u64,
    out_of_reach: u64,
    refused: u64,
    // Bytes of a case that was cut, or of a file longer than the room.
    left_over: usize,
    ghost within: { (different ≤ instants) × (judged ≤ instants) × (in_window ≤ instants) × (lower ≤ instants) × (upper ≤ instants) × (out_of_reach ≤ instants) × (refused ≤ instants) },
}

fn answer_to(case: &[u64; CASE]) -> Result<InstantAnswer, Refusal> {
    judge_at(
        encounter_in(case),
        settings_in(case),
        question_in(case),
        Instant {
            n: case[16],
            m: case[17],
        },
    )
}

fn expected(case: &[u64; CASE]) -> InstantResult {
    InstantResult {
        refusal: case[18],
        in_reach: case[19],
        in_window: case[20],
        lower: case[21],
        upper: case[22],
    }
}

impl Report {
    // Judges the instant of a case, and counts it.
    fn count(&mut self, case: &[u64; CASE])
        requires { self.old.instants + 1 < 2 ^ 64 }
        ensures { self.new.instants ≡ self.old.instants + 1 }
    {
        let answer = answer_to(case);
        self.instants += 1;
        self.different += u64::from(InstantResult::from(answer) != expected(case));
        match answer {
            Ok(InstantAnswer::Judged(found)) => {
                self.judged += 1;
                self.in_window += u64::from(found.in_window);
                self.lower += u64::from(found.lower);
                self.upper += u64::from(found.upper.unwrap_or(false));
            }
            Ok(InstantAnswer::OutOfReach) => self.out_of_reach += 1,
            Err(_) => self.refused += 1,
        }
    }
}

impl Display for Report {
    fn fmt<W: fmt::Write>(&self, f: &mut fmt::Formatter<W>) -> fmt::Result {
        write!(
            f,
            "  instants {}, different {}; judged {}, in the window {}; conflicts on the lower side {}, on the upper {}; out of reach {}; refused {}; bytes left over {}",
            self.instants,
            self.different,
            self.judged,
            self.in_window,
            self.lower,
            self.upper,
            self.out_of_reach,
            self.refused,
            self.left_over
        )
    }
}

// Judges all whole cases. Zeros are written out, as a struct with a ghost field has no derived Default.
// (`vectors` has this loop too. For one function of both, each report would need a trait, with its number of cases as a ghost member: no count may overflow.)
fn report_on(bytes: &[u8]) -> Report {
    let (cases, left_over) = whole_cases::<CASE>(bytes);
    let mut report = Report {
        instants: 0,
        different: 0,
        judged: 0,
        in_window: 0,
        lower: 0,
        upper: 0,
        out_of_reach: 0,
        refused: 0,
        left_over,
    };
    for case in cases {
        report.count(&numbers_in(case));
    }
    report
}

fn main(rt: HostRuntime) -> io::Result<()> {
    report_arguments(&rt, &mut rt.stdout(), &mut [0u8; ROOM], &report_on)
}
