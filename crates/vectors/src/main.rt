// Judges the cases in each file that an argument names. Of each it writes the file's name and first line, which says in words what the cases are, and then the number of
// cases, of answers that differ from those in the file, and of answers of each kind.
// `cargo run --profile checked --bin vectors ../crates/vectors`, run in `compare/`, writes the files, `args` and `stdout`: the answers are the independent implementation's.
// The program is proved safe. That it sees a difference is shown by the file `planted`, whose answers are wrong.
#![tactic(auto)]

ghost use Rattle.std.specs.Prelude.{◌≡◌, ◌+◌, ◌-◌, ◌^◌, ◌<◌, ◌≤◌};

use binding::JudgeResult;
use cases::{encounter_in, numbers_in, question_in, report_arguments, settings_in, whole_cases};
use coded::coded_question;
use judge::judge;
use question::{Question, Refusal};
use std::fmt::Display;
use std::{fmt, io};
use verdict::Verdict;

// Numbers of 8 bytes: the sixteen of the question; 0 where they are a free question, else 1, and the code; the kind of the expected answer, and its six numbers.
const CASE: usize = 25;

// 512 cases, and a first line of 600 bytes.
const ROOM: usize = 103000;

#[derive(Clone, Copy)]
struct Report {
    cases: u64,
    differences: u64,
    // How many cases come before the first difference: its number, from 0.
    agreeing: u64,
    // Answers of kinds 65, 66, 67 and 68.
    clear: u64,
    conflict: u64,
    conflicts: u64,
    refused: u64,
    // Bytes of a case that was cut, or of a file longer than the room.
    left_over: usize,
    ghost within: { (differences ≤ cases) × (agreeing ≤ cases) × (clear ≤ cases) × (conflict ≤ cases) × (conflicts ≤ cases) × (refused ≤ cases) },
}

// The question, or the refusal of its code, which is the last byte of its number.
fn asked(case: &[u64; CASE]) -> Result<Question, Refusal> {
    if case[16] == 0 {
        return Ok(question_in(case));
    }
    coded_question(
        (case[17] & 0xff) as u8,
        case[3].cast_signed(),
        case[15].cast_signed(),
    )
}

fn answer_to(case: &[u64; CASE]) -> Result<Verdict, Refusal> {
    judge(encounter_in(case), settings_in(case), asked(case)?)
}

// The first of an answer's numbers is that of a clear answer or a refusal, and else the lower time's seconds.
fn expected(case: &[u64; CASE]) -> JudgeResult {
    let (number, lower_seconds) = match case[18] {
        65 | 68 => (case[19], 0),
        _ => (0, case[19]),
    };
    JudgeResult {
        kind: case[18],
        number,
        lower_seconds,
        lower_remainder: case[20],
        lower_divisor: case[21],
        upper_seconds: case[22],
        upper_remainder: case[23],
        upper_divisor: case[24],
    }
}

impl Report {
    // Judges a case, and counts it.
    fn count(&mut self, case: &[u64; CASE])
        requires { self.old.cases + 1 < 2 ^ 64 }
        ensures { self.new.cases ≡ self.old.cases + 1 }
    {
        let answer = answer_to(case);
        self.cases += 1;
        self.differences += u64::from(JudgeResult::from(answer) != expected(case));
        self.agreeing += u64::from(self.differences == 0);
        match answer {
            Ok(Verdict::Clear(_)) => self.clear += 1,
            Ok(Verdict::Conflict(_)) => self.conflict += 1,
            Ok(Verdict::Conflicts(_, _)) => self.conflicts += 1,
            Err(_) => self.refused += 1,
        }
    }
}

impl Display for Report {
    fn fmt<W: fmt::Write>(&self, f: &mut fmt::Formatter<W>) -> fmt::Result {
        write!(
            f,
            "  cases {}, differences {} after {} that agree; kind 65 {}, 66 {}, 67 {}, 68 {}; bytes left over {}",
            self.cases,
            self.differences,
            self.agreeing,
            self.clear,
            self.conflict,
            self.conflicts,
            self.refused,
            self.left_over
        )
    }
}

// Judges all whole cases. Zeros are written out, as a struct with a ghost field has no derived Default.
// (`drawings` has this loop too, of three lines. One function of both would want a trait of their reports, with the number of cases as a ghost member, as no count may overflow, and an
// impl in each: more than the two loops.)
fn report_on(bytes: &[u8]) -> Report {
    let (cases, left_over) = whole_cases::<CASE>(bytes);
    let mut report = Report {
        cases: 0,
        differences: 0,
        agreeing: 0,
        clear: 0,
        conflict: 0,
        conflicts: 0,
        refused: 0,
        left_over,
    };
    for case in cases {
        report.count(&numbers_in(case));
    }
    report
}

fn main(rt: HostRuntime) -> io::Result<()> {
    report_arguments(&rt, &mut rt.stdout(), &mut [0u8; ROOM], &report_on)
}
