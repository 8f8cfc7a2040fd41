// What the programs share that hold the judge against stored answers: a file's first line and the whole cases behind it, and a report on each file that an argument names.
#![tactic(auto)]

ghost use Rattle.std.specs.Prelude.{◌≡◌, ℕ, ◌+◌, ◌*◌, ◌%◌, ◌/◌, ◌<◌, ◌≤◌, ◌++◌, [], ◌∷◌, ◌==◌, length, map, take, position, OnOk, IfSome, List};
ghost use Rattle.std.specs.Int.{w64, from_be_bytes};
ghost use Rattle.std.specs.Simd.{first_chunks};
ghost use Rattle.std.specs.Fn.{FnReturnsAt};
ghost use Rattle.std.specs.List.{FoldsTo};
ghost use Rattle.std.specs.Io.BufRead.{take_through, drop_through};
ghost use Rattle.std.specs.Io.KnownBytes.{Appends};
ghost use Rattle.cases.specs.Numbers.{encounter_in, settings_in, question_in};
ghost use Rattle.cases.specs.Reports.{unread_text, WritesReport, WritesArgument};

mod line;

use line::write_line;
use question::{Encounter, Question, Settings};
use reading::{NAME_ROOM, argument_count, argument_part, open_named, read_part};
use std::fmt::Display;
use std::io;
use std::io::{Read, Write};
use std::rt::{Env, Files};

const LINE_END: u8 = 10;

// A case's numbers, of eight bytes each. By places: `map` compiles to seventeen instructions a number, which cost `vectors` 58 % and `drawings` 30 % a file; of what
// `iter_mut` lends to a `zip` nothing is known afterwards.
pub fn numbers_in<const N: usize>(case: &[[u8; 8]; N]) -> [u64; N]
    ensures { result ≡ map (from_be_bytes w64) case.now }
{
    let mut numbers = [0u64; N];
    for (k, bytes) in case.iter().enumerate() {
        numbers[k] = u64::from_be_bytes(*bytes);
    }
    numbers
}

// A case's first numbers, in two's complement.
pub fn encounter_in<const N: usize>(case: &[u64; N]) -> Encounter
    requires { 5 ≤ N }
    ensures { result ≡ encounter_in case.now }
{
    Encounter {
        distance: case[0].cast_signed(),
        height: case[1].cast_signed(),
        closing_speed: case[2].cast_signed(),
        speed: case[3].cast_signed(),
        intruder_speed: case[4].cast_signed(),
    }
}

// The settings' follow.
pub fn settings_in<const N: usize>(case: &[u64; N]) -> Settings
    requires { 8 ≤ N }
    ensures { result ≡ settings_in case.now }
{
    Settings {
        radius: case[5].cast_signed(),
        half_height: case[6].cast_signed(),
        delay_acceleration: case[7].cast_signed(),
    }
}

// And the question's, where the case has one.
pub fn question_in<const N: usize>(case: &[u64; N]) -> Question
    requires { 16 ≤ N }
    ensures { result ≡ question_in case.now }
{
    Question {
        sides: case[8].cast_signed(),
        sense: case[9].cast_signed(),
        target: case[10].cast_signed(),
        upper_target: case[11].cast_signed(),
        strength: case[12].cast_signed(),
        upper_strength: case[13].cast_signed(),
        delay: case[14].cast_signed(),
        limit: case[15].cast_signed(),
    }
}

// The whole cases of N numbers of eight bytes, and how many bytes are left over.
pub fn whole_cases<const N: usize>(bytes: &[u8]) -> (&[[[u8; 8]; N]], usize)
    requires { 0 < N }
    ensures cases { result.0.now ≡ first_chunks N (length bytes.now / 8 / N) (first_chunks 8 (length bytes.now / 8) bytes.now) }
    ensures number { length result.0.now ≡ length bytes.now / 8 / N }
    ensures left_over { result.1 ≡ length bytes.now % (N * 8) }
{
    let (numbers, odd) = bytes.as_chunks::<8>();
    let (cases, rest) = numbers.as_chunks::<N>();
    (cases, rest.len() * 8 + odd.len())
}

fn line_end(bytes: &[u8]) -> Option<usize>
    ensures { result ≡ position (λ byte. byte == LINE_END) bytes.now }
{
    bytes.iter().position(|byte| *byte == LINE_END)
}

// The first line, with its end, and what follows.
fn split_first_line(bytes: &[u8]) -> (&[u8], &[u8])
    ensures { (result.0.now ≡ take_through LINE_END bytes.now) × (result.1.now ≡ drop_through LINE_END bytes.now) }
{
    match line_end(bytes) {
        Some(at) => bytes.split_at(at + 1),
        None => (bytes, &[]),
    }
}

// Writes the name and the first line of a file, as much of it as the room has, and the report on the rest. Name and line by `write_all`: they are bytes,
// perhaps no text. Output, room and report are parameters, here and below: a struct would hold two `&mut`s, and each function had to promise besides that both stay where
// they are. That the report may be called is asked with it: a function can't know what a closure that it is handed needs.
pub fn report_file<I: Read, O: Write, T: Display + Drop, F: Fn(&[u8]) -> T>(
    input: &mut I,
    output: &mut O,
    name: &[u8],
    room: &mut [u8],
    report: &F,
) -> io::Result<()>
    requires { F.IsAlwaysCallable report.now }
    ensures { OnOk result ((file : List ℕ) × IfSome (I.remaining input.old) (λ bytes. file ≡ take (length room.old) bytes)
        × WritesReport T.output (FnReturnsAt F.Fn report.now) (O.contents output.old) name.now file (O.contents output.new)) }
{
    output.write_all(name)?;
    report_opened(input, output, room, report)
}

// What stands behind the name.
fn report_opened<I: Read, O: Write, T: Display + Drop, F: Fn(&[u8]) -> T>(
    input: &mut I,
    output: &mut O,
    room: &mut [u8],
    report: &F,
) -> io::Result<()>
    requires { F.IsAlwaysCallable report.now }
    ensures { OnOk result ((file : List ℕ) × IfSome (I.remaining input.old) (λ bytes. file ≡ take (length room.old) bytes)
        × WritesReport T.output (FnReturnsAt F.Fn report.now) (O.contents output.old) [] file (O.contents output.new)) }
{
    output.write_all(b": ")?;
    let (line, cases) = split_first_line(read_part(input, room)?);
    output.write_all(line)?;
    write_line(output, &report(cases))
}

fn write_unread<O: Write>(output: &mut O) -> io::Result<()>
    ensures { OnOk result (Appends (O.contents output.old) (O.contents output.new) (unread_text [])) }
{
    writeln!(output, ": cannot be read")
}

// The name stands there before its file is opened, which may wait, as at a pipe that nothing writes to. By `write_all`, as a file's name is bytes, perhaps no text.
#[tactic(auto, using(crate::proofs::Behind::unread_behind))]
fn report_argument<R: Files + Env, O: Write, T: Display + Drop, F: Fn(&[u8]) -> T>(
    rt: &R,
    output: &mut O,
    k: usize,
    room: &mut [u8],
    report: &F,
) -> io::Result<()>
    requires { F.IsAlwaysCallable report.now }
    ensures { OnOk result ((name : List ℕ) × WritesArgument T.output (FnReturnsAt F.Fn report.now) (O.contents output.old) name (O.contents output.new)) }
{
    let mut name = [0u8; NAME_ROOM];
    let argument = argument_part(rt, k, &mut name);
    output.write_all(argument)?;
    match open_named(rt, argument) {
        Ok(mut file) => report_opened(&mut file, output, room, report),
        Err(_) => write_unread(output),
    }
}

// Reports on each file that an argument names. By numbers, and not by `reading::each_argument`: with that the contract finds no proof, as what the closure
// wrote is no longer tied to the output once the calls are over.
pub fn report_arguments<R: Files + Env, O: Write, T: Display + Drop, F: Fn(&[u8]) -> T>(
    rt: &R,
    output: &mut O,
    room: &mut [u8],
    report: &F,
) -> io::Result<()>
    requires { F.IsAlwaysCallable report.now }
    ensures { OnOk result ((names : List (List ℕ)) × FoldsTo (WritesArgument T.output (FnReturnsAt F.Fn report.now)) (O.contents output.old) names (O.contents output.new)) }
{
    for k in 1..argument_count(rt) {
        report_argument(rt, output, k, room, report)?;
    }
    Ok(())
}

#[cfg(test)]
mod tests {
    use super::*;
    use std::cell::Cell;
    use std::{fmt, str};

    // A report longer than a line's room, of pieces of so many bytes, that can be displayed once.
    #[derive(Drop)]
    struct Once {
        text: [u8; 600],
        piece: usize,
        is_shown: Cell<bool>,
    }

    impl Display for Once {
        fn fmt<W: fmt::Write>(&self, f: &mut fmt::Formatter<W>) -> fmt::Result {
            if self.is_shown.replace(true) {
                return Err(fmt::Error);
            }
            for piece in self.text.chunks(self.piece.max(1)) {
                match str::from_utf8(piece) {
                    Ok(piece) => f.write_str(piece)?,
                    Err(_) => return Err(fmt::Error),
                }
            }
            Ok(())
        }
    }

    // A report that fails after three bytes.
    #[derive(Drop)]
    struct Failing {}

    impl Display for Failing {
        fn fmt<W: fmt::Write>(&self, f: &mut fmt::Formatter<W>) -> fmt::Result {
            f.write_str("abc")?;
            Err(fmt::Error)
        }
    }

    #[test]
    fn failed_report_is_written_so_far(rt: HostRuntime) {
        let mut room = [0u8; 16];
        let mut area = [0u8; 20];
        let mut output = area.as_mut_slice();
        let mut file: &[u8] = b"line\ncases";
        let report = |_cases: &[u8]| Failing {};
        assert!(rt; report_file(&mut file, &mut output, b"name", &mut room, &report).is_err());
        assert_eq!(rt; output.len(), 6);
        assert!(rt; &area[..14] == b"name: line\nabc".as_slice());
    }

    #[test]
    fn long_report_is_displayed_once(rt: HostRuntime) {
        for piece in [1, 7, 511, 512, 513, 600] {
            let mut room = [0u8; 16];
            let mut area = [0u8; 700];
            let mut output = area.as_mut_slice();
            let mut file: &[u8] = b"line\ncases";
            let report = |cases: &[u8]| Once {
                text: [cases.first().copied().unwrap_or(0); 600],
                piece,
                is_shown: Cell::new(false),
            };
            let written = report_file(&mut file, &mut output, b"name", &mut room, &report);
            assert!(rt; written.is_ok(), "pieces of {piece}");
            assert_eq!(rt; output.len(), 88, "pieces of {piece}");
            assert!(rt;
                &area[..11] == b"name: line\n".as_slice(),
                "pieces of {piece}"
            );
            assert!(rt;
                area[11..611].iter().all(|byte| *byte == b'c'),
                "pieces of {piece}"
            );
            assert!(rt; area[611] == LINE_END, "pieces of {piece}");
        }
    }
}
