// The bytes of an answer record, and writing them into an area. `specs/` says what the bytes are.
#![tactic(auto)]

ghost use Rattle.std.specs.Prelude.{◌≡◌, ◌≤◌, ℕ, length};
ghost use Rattle.std.proofs.lemmas.List.Edits.{sets};
ghost use Rattle.judge.specs.Answers.{time_numbers};
ghost use Rattle.question.specs.RefusalNumbers.{refusal_number};
ghost use Rattle.reply.specs.AnswerBytes.{big_endian, body_bytes, numbered_bytes};

use instant::Time;
use judge::sides_number;
use question::Refusal;
use verdict::Verdict;

// The kinds of answer records.
const CLEAR: u8 = 65;

const CONFLICT: u8 = 66;

const CONFLICTS: u8 = 67;

const REFUSED: u8 = 68;

// What an answer is refused with: a refusal, or any number.
pub trait Numbered: Copy {
    ghost number: { Self → ℕ };

    fn number(self) -> u8
        ensures { result ≡ number self };
}

impl Numbered for Refusal {
    ghost number = { refusal_number };

    fn number(self) -> u8 {
        Refusal::number(self)
    }
}

impl Numbered for u8 {
    ghost number = { λ n. n };

    fn number(self) -> u8 {
        self
    }
}

// How many bytes a record's reply has: none, or an answer record's.
pub fn reply_length<R: Numbered>(reply: Option<Result<Verdict, R>>) -> usize
    ensures { result ≡ length (numbered_bytes R.number reply) }
{
    match reply {
        None => 0,
        Some(Ok(Verdict::Clear(_))) => 2,
        Some(Ok(Verdict::Conflict(_))) => 13,
        Some(Ok(Verdict::Conflicts(_, _))) => 25,
        Some(Err(_)) => 2,
    }
}

// A number's low four bytes, the most significant first.
fn write_number(area: &mut [u8], n: u64)
    requires { 4 ≤ length area.old }
    ensures { area.new ≡ sets area.old 0 (big_endian n) }
{
    area[..4].copy_from_slice(&n.to_be_bytes()[4..]);
}

// The numbers in the record's order. A loop over them would have an array of them beside it, and places 4 apart.
fn write_time(area: &mut [u8], time: Time)
    requires { 12 ≤ length area.old }
    ensures { area.new ≡ sets area.old 0 (body_bytes 66 (time_numbers time)) }
{
    write_number(area, time.seconds);
    write_number(&mut area[4..], time.remainder);
    write_number(&mut area[8..], time.divisor);
}

fn write_answer<R: Numbered>(area: &mut [u8], answer: Result<Verdict, R>)
    requires { length (numbered_bytes R.number (Some answer)) ≤ length area.old }
    ensures { area.new ≡ sets area.old 0 (numbered_bytes R.number (Some answer)) }
{
    match answer {
        Ok(Verdict::Clear(sides)) => {
            area[0] = CLEAR;
            area[1] = sides_number(sides);
        }
        Ok(Verdict::Conflict(time)) => {
            area[0] = CONFLICT;
            write_time(&mut area[1..], time);
        }
        Ok(Verdict::Conflicts(lower, upper)) => {
            area[0] = CONFLICTS;
            write_time(&mut area[1..], lower);
            write_time(&mut area[13..], upper);
        }
        Err(why) => {
            area[0] = REFUSED;
            area[1] = why.number();
        }
    }
}

// What a record is answered, if anything, from the area's start on.
pub fn write_reply<R: Numbered>(area: &mut [u8], reply: Option<Result<Verdict, R>>)
    requires { length (numbered_bytes R.number reply) ≤ length area.old }
    ensures { area.new ≡ sets area.old 0 (numbered_bytes R.number reply) }
{
    if let Some(answer) = reply {
        write_answer(area, answer);
    }
}
