// A sheet's records: numbers, kinds and bodies, decoded in one place; and the refusals of a whole sheet that kinds and lengths decide. `specs/` says what each is.
#![tactic(auto)]

ghost use Rattle.std.specs.Prelude.{◌≡◌, ◌+◌, ◌≤◌, ◌<◌, length, take, drop, pos};
ghost use Rattle.std.specs.Option.{option_map};
ghost use Rattle.record.specs.Numbers.{byte_at, short_at, word_at, number_at};
ghost use Rattle.record.specs.Kinds.{kind_of, known_kind, body_length, body_after};
ghost use Rattle.record.specs.Records.{encounter_in, question_in, record_of};
ghost use Rattle.record.specs.SheetCheck.{fault_after, sheet_check};

use question::{Encounter, Question, Refusal};

pub mod checked_sheet;
pub mod records;

pub use checked_sheet::CheckedSheet;
pub use records::Records;

// What a record is, which its first byte says. Apart from `Record`, as the kind is known before there are numbers: it says how long the body is.
#[derive(Clone, Copy)]
pub enum Kind {
    Encounter,
    Puck,
    DelayAcceleration,
    Coded,
    Free,
}

impl TryFrom<u8> for Kind {
    type Error = Refusal;

    ghost try_from_gives = { λ byte given. given ≡ known_kind byte };

    fn try_from(byte: u8) -> Result<Kind, Refusal> {
        match byte {
            1 => Ok(Kind::Encounter),
            2 => Ok(Kind::Puck),
            3 => Ok(Kind::DelayAcceleration),
            4 => Ok(Kind::Coded),
            5 => Ok(Kind::Free),
            _ => Err(Refusal::KindUnknown),
        }
    }
}

impl Kind {
    // How many bytes follow the kind's own.
    pub fn body_length(self) -> usize
        ensures { result ≡ body_length self }
    {
        match self {
            Kind::Encounter => 20,
            Kind::Puck => 8,
            Kind::DelayAcceleration => 4,
            Kind::Coded => 3,
            Kind::Free => 22,
        }
    }
}

// A record with its numbers: r, h, c, v, vi; p, k; e; code, limit; a free question. A code is any byte and a limit any number that the sheet has: whoever answers
// the question refuses them, as 8, 9, 17 or 6, and what the record held can still be told.
#[derive(Clone, Copy)]
pub enum Record {
    Encounter(Encounter),
    Puck(i64, i64),
    DelayAcceleration(i64),
    Coded(u8, i64),
    Free(Question),
}

// No sheet has more bytes.
pub const MAX_SHEET: usize = 8192;

// The N bytes at a position. Fields are read by their places in the body, as the definitions and README.md's table of records have them: each line of
// `encounter_in` and `question_in` can be held against its line there, where a reader that moves on would make the place of one hang on all before it.
fn bytes_at<const N: usize>(bytes: &[u8], at: usize) -> [u8; N]
    requires { at + N ≤ length bytes.now }
    ensures { result ≡ take N (drop at bytes.now) }
{
    *bytes[at..].first_chunk().unwrap()
}

// The four bytes at a position, unsigned.
pub fn word_at(bytes: &[u8], at: usize) -> u64
    requires { at + 4 ≤ length bytes.now }
    ensures { (result ≡ word_at bytes.now at) × (result < 4294967296) }
{
    u64::from(u32::from_be_bytes(bytes_at(bytes, at)))
}

// The same in two's complement.
#[tactic(auto, unfolding(crate::specs::Numbers::number_at))]
fn number_at(bytes: &[u8], at: usize) -> i64
    requires { at + 4 ≤ length bytes.now }
    ensures { result ≡ number_at bytes.now at }
{
    i64::from(i32::from_be_bytes(bytes_at(bytes, at)))
}

// The two bytes at a position, unsigned. (`from_be_bytes` is of each type and of no trait, so there is a function for each.)
fn short_at(bytes: &[u8], at: usize) -> i64
    requires { at + 2 ≤ length bytes.now }
    ensures { result ≡ pos (short_at bytes.now at) }
{
    i64::from(u16::from_be_bytes(bytes_at(bytes, at)))
}

fn byte_at(bytes: &[u8], at: usize) -> i64
    requires { at < length bytes.now }
    ensures { result ≡ pos (byte_at bytes.now at) }
{
    i64::from(bytes[at])
}

#[tactic(auto, unfolding(crate::specs::Records::encounter_in))]
fn encounter_in(body: &[u8]) -> Encounter
    requires { 20 ≤ length body.now }
    ensures { result ≡ encounter_in body.now }
{
    Encounter {
        distance: number_at(body, 0),
        height: number_at(body, 4),
        closing_speed: number_at(body, 8),
        speed: number_at(body, 12),
        intruder_speed: number_at(body, 16),
    }
}

#[tactic(auto, unfolding(crate::specs::Records::question_in))]
fn question_in(body: &[u8]) -> Question
    requires { 22 ≤ length body.now }
    ensures { result ≡ question_in body.now }
{
    Question {
        sides: byte_at(body, 0),
        sense: byte_at(body, 1),
        target: number_at(body, 2),
        upper_target: number_at(body, 6),
        strength: number_at(body, 10),
        upper_strength: number_at(body, 14),
        delay: short_at(body, 18),
        limit: short_at(body, 20),
    }
}

// A record, from its kind and the bytes after the kind's byte. Inlined, as the walks over records are: a record handed over in memory is read back in other pieces
// than it was written in, which the processor waits for (docs/PERFORMANCE.md).
#[inline(always)]
fn record_of(kind: Kind, body: &[u8]) -> Record
    requires { body_length kind ≤ length body.now }
    ensures { result ≡ record_of kind body.now }
{
    match kind {
        Kind::Encounter => Record::Encounter(encounter_in(body)),
        Kind::Puck => Record::Puck(number_at(body, 0), number_at(body, 4)),
        Kind::DelayAcceleration => Record::DelayAcceleration(number_at(body, 0)),
        Kind::Coded => Record::Coded(body[0], short_at(body, 1)),
        Kind::Free => Record::Free(question_in(body)),
    }
}

// The record whose kind's byte stands at a position, if the kind is known. By positions, for whoever tells where a record stands, in a sheet with a fault too;
// `Records` walks a sheet without one and tells no places.
#[inline(always)]
pub fn record_at(sheet: &[u8], at: usize) -> Option<Record>
    requires { (at < length sheet.now) × (at + 1 + body_after (kind_of (byte_at sheet.now at)) ≤ length sheet.now) }
    ensures { result ≡ option_map (λ kind. record_of kind (drop (at + 1) sheet.now)) (kind_of (byte_at sheet.now at)) }
{
    let kind = Kind::try_from(sheet[at]).ok()?;
    Some(record_of(kind, &sheet[at + 1..]))
}

// The position after that record; an unknown kind has no body.
pub fn next_at(sheet: &[u8], at: usize) -> usize
    requires { at < length sheet.now }
    ensures { result ≡ at + 1 + body_after (kind_of (byte_at sheet.now at)) }
{
    at + 1 + Kind::try_from(sheet[at]).map_or(0, |kind| kind.body_length())
}

// The first fault of the kinds and the lengths of the bodies.
#[tactic(auto, using(crate::proofs::Scan::fault_unknown, crate::proofs::Scan::fault_short, crate::proofs::Scan::fault_later, std::proofs::lemmas::List::take_rest), unfolding(crate::specs::SheetCheck::fault_after))]
fn first_fault(sheet: &[u8]) -> Result<(), Refusal>
    ensures { result ≡ fault_after 0 sheet.now }
{
    let mut rest = sheet;
    while let Some((first, after)) = rest.split_first() {
        let kind = Kind::try_from(*first)?;
        rest = after
            .get(kind.body_length()..)
            .ok_or(Refusal::RecordCutShort)?;
    }
    Ok(())
}

// Refusals 10, 11 and 12.
pub fn check_sheet(sheet: &[u8]) -> Result<(), Refusal>
    ensures { result ≡ sheet_check sheet.now }
{
    if MAX_SHEET < sheet.len() {
        return Err(Refusal::SheetTooLong);
    }
    first_fault(sheet)
}
