// Answers question sheets in words. Each argument names a sheet's file; `-` is standard input; `--at=17 1/2` names an instant, of which the answers to the sheets
// behind it speak too.
// What is said of a record is what `answering::State` replies, by `answer`, `explain` and `answer_at`: nothing is judged here.
#![tactic(auto)]

ghost use Rattle.std.specs.Prelude.{◌≡◌, IfOk, Some};
ghost use Rattle.words.specs.InstantTexts.{instant_in};
ghost use Rattle.words.specs.NamedInstants.{named};
ghost use Rattle.words.specs.Meanings.{meaning_said};

use answering::State;
use instant::Instant;
use meaning::Meaning;
use question::{Encounter, Refusal};
use reading::{each_argument, open_named, read_part, say_unread};
use record::{CheckedSheet, MAX_SHEET, Record, next_at, record_at};
use std::rt::Files;
use std::{fmt, io, str};
use verdict::Verdict;

mod instant_text;
mod meanings;
mod phrases;
mod standings;

use instant_text::instant_in;
use phrases::Words;
use standings::Named;

// An accepted encounter, and the number of its record.
#[derive(Clone, Copy)]
struct Met {
    record: usize,
    encounter: Encounter,
}

// What the words need of the records before: the encounter that was accepted last, and of each setting the number of its last record if that was refused.
#[derive(Clone, Copy, Default)]
struct Notes {
    met: Option<Met>,
    refused_encounter: Option<usize>,
    refused_puck: Option<usize>,
    refused_acceleration: Option<usize>,
}

impl Notes {
    // Takes note of a record of that number, and of the reply to it: an encounter or a setting that is accepted gets none.
    fn update(&mut self, record: usize, given: Record, reply: Option<Result<Verdict, Refusal>>) {
        let refused = reply.and(Some(record));
        match given {
            Record::Encounter(encounter) => {
                self.refused_encounter = refused;
                if refused.is_none() {
                    self.met = Some(Met { record, encounter });
                }
            }
            Record::Puck(_, _) => self.refused_puck = refused,
            Record::DelayAcceleration(_) => self.refused_acceleration = refused,
            Record::Coded(_, _) | Record::Free(_) => {}
        }
    }
}

// Where a record stands: its number, from 1, and the position of its kind's byte, from 0.
#[derive(Clone, Copy)]
struct Place {
    record: usize,
    byte: usize,
}

impl fmt::Display for Place {
    fn fmt<W: fmt::Write>(&self, f: &mut fmt::Formatter<W>) -> fmt::Result {
        let Place { record, byte } = *self;
        write!(f, "record {record} at byte {byte}")
    }
}

// Where the last record of a setting was refused.
fn print_warning(
    out: &impl Print,
    setting: &str,
    refused: Option<usize>,
    instead: &str,
) -> io::Result<()> {
    match refused {
        None => Ok(()),
        Some(record) => println!(out;
            "    warning: {setting} in record {record} was refused, {instead}"
        ),
    }
}

// What a question was asked of.
fn print_asked(out: &impl Print, notes: Notes) -> io::Result<()> {
    let earlier = "so the one before it holds";
    let instead = match notes.met {
        None => "and there is none before it",
        Some(Met { record, encounter }) => {
            println!(out;
                "    asked of the encounter in record {record}: {}",
                Words(encounter)
            )?;
            earlier
        }
    };
    print_warning(out, "the encounter", notes.refused_encounter, instead)?;
    print_warning(out, "the puck", notes.refused_puck, earlier)?;
    print_warning(
        out,
        "the delay acceleration",
        notes.refused_acceleration,
        earlier,
    )
}

// What the verdict means, if the record is a question that is not refused.
fn meaning_said(state: State, given: Record) -> Option<Meaning>
    ensures { result ≡ meaning_said state given }
{
    state.explain(given)?.ok()
}

// What holds at the instant that is named, if one is and the record is a question that is not refused.
fn named(
    state: State,
    given: Record,
    answer: Result<Verdict, Refusal>,
    at: Option<Instant>,
) -> Option<Named>
    ensures { result ≡ named state given answer at }
{
    let instant = at?;
    let verdict = answer.ok()?;
    let answer = state.answer_at(given, instant)?.ok()?;
    Some(Named {
        instant,
        answer,
        verdict,
    })
}

// An answer with its number, what it means, and what holds at the instant that is named.
fn print_answer(
    out: &impl Print,
    number: usize,
    answer: Result<Verdict, Refusal>,
    meaning: Option<Meaning>,
    named: Option<Named>,
) -> io::Result<()> {
    println!(out; "answer {number}: {}", Words(answer))?;
    if let Some(meaning) = meaning {
        println!(out; "    {}", Words(meaning))?;
    }
    match named {
        Some(named) => println!(out; "    {named}"),
        None => Ok(()),
    }
}

// The record that an answer answers, and what a question was asked of.
fn print_given(out: &impl Print, place: Place, given: Record, notes: Notes) -> io::Result<()> {
    println!(out; "    {place}, {}", Words(given))?;
    if matches!(given, Record::Coded(_, _) | Record::Free(_)) {
        print_asked(out, notes)?;
    }
    Ok(())
}

// All records of a sheet, in order. By positions, which the words tell: the iterator over records knows none.
#[tactic(auto, using(record::proofs::Scan::whole_record))]
fn print_answers(
    out: &impl Print,
    checked: CheckedSheet,
    instant: Option<Instant>,
) -> io::Result<()> {
    let sheet = checked.bytes;
    let (mut at, mut records, mut answers) = (0, 0, 0);
    let mut state = State::new();
    let mut notes = Notes::default();
    while at < sheet.len() {
        let given = record_at(sheet, at).unwrap();
        let (next, reply) = state.answer(given);
        records += 1;
        if let Some(answer) = reply {
            answers += 1;
            let place = Place {
                record: records,
                byte: at,
            };
            print_answer(
                out,
                answers,
                answer,
                meaning_said(state, given),
                named(state, given, answer, instant),
            )?;
            print_given(out, place, given, notes)?;
        }
        notes.update(records, given, reply);
        state = next;
        at = next_at(sheet, at);
    }
    println!(out; "records {records}, answers {answers}")
}

// The first record that is cut short or of unknown kind. By positions too: the test of a whole sheet says what is wrong and not where, as nothing but this asks
// for the place, and `Records` walks sheets without a fault.
fn first_fault(sheet: &[u8]) -> Option<Place> {
    let (mut at, mut record) = (0, 0);
    while at < sheet.len() {
        record += 1;
        let next = next_at(sheet, at);
        if sheet.len() < next || record_at(sheet, at).is_none() {
            return Some(Place { record, byte: at });
        }
        at = next;
    }
    None
}

fn print_refused(out: &impl Print, sheet: &[u8], why: Refusal) -> io::Result<()> {
    println!(out; "sheet {}", Words(why))?;
    if why == Refusal::SheetTooLong {
        return Ok(());
    }
    match first_fault(sheet) {
        Some(place) => println!(out; "    {place}"),
        None => Ok(()),
    }
}

fn print_sheet(out: &impl Print, sheet: &[u8], instant: Option<Instant>) -> io::Result<()> {
    match CheckedSheet::check(sheet) {
        Ok(checked) => print_answers(out, checked, instant),
        Err(why) => print_refused(out, sheet, why),
    }
}

fn answer_file<P: Print, R: io::Read>(
    out: &P,
    file: &mut R,
    instant: Option<Instant>,
) -> io::Result<()> {
    // One byte more than the longest sheet, so that a longer one is seen. (`program::answer_read` reads so too, but gives the answer's bytes, and words are of the sheet's.)
    let mut room = [0u8; MAX_SHEET + 1];
    print_sheet(out, read_part(file, &mut room)?, instant)
}

fn answer_named<R: Print + Eprint + Files>(
    rt: &R,
    name: &[u8],
    instant: Option<Instant>,
) -> io::Result<()> {
    match open_named(rt, name) {
        Ok(mut file) => {
            // By `write_all`, as a file's name is bytes, perhaps no text.
            rt.write_all(name)?;
            rt.print("\n")?;
            answer_file(rt, &mut file, instant)
        }
        Err(error) => say_unread(rt, name, error),
    }
}

// The instant that an argument names; says on standard error where it names none.
fn read_instant<E: Eprint>(to: &E, text: &[u8]) -> io::Result<Instant>
    ensures { IfOk result (λ instant. instant_in text.now ≡ Some instant) }
{
    match str::from_utf8(text).ok().and_then(instant_in) {
        Some(instant) => Ok(instant),
        None => {
            eprintln!(to; "--at= names no instant: an instant is 17, 17.5, 35/2 or 17 1/2")?;
            Err(io::Error::from(io::ErrorKind::InvalidInput))
        }
    }
}

fn answer_argument<R: Print + Eprint + Input + Files>(
    rt: &R,
    argument: &[u8],
    instant: &mut Option<Instant>,
) -> io::Result<()> {
    if let Some(text) = argument.strip_prefix(b"--at=") {
        *instant = Some(read_instant(rt, text)?);
        return Ok(());
    }
    match argument {
        b"-" => answer_file(rt, &mut rt.reader(), *instant),
        _ => answer_named(rt, argument, *instant),
    }
}

fn main(rt: HostRuntime) -> io::Result<()> {
    let mut instant = None;
    each_argument(
        &rt,
        &mut |argument| answer_argument(&rt, argument, &mut instant),
    )
}
