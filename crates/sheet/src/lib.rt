// A question sheet, its records answered in order into an area that the caller lends. `specs/` says what the answer and each outcome are.
#![tactic(auto)]

ghost use Rattle.std.specs.Prelude.{◌≡◌, ◌≤◌, ◌<◌, ◌^◌, sum_by, leb, length};
ghost use Rattle.std.proofs.lemmas.List.Edits.{sets};
ghost use Rattle.reply.specs.AnswerBytes.{reply_bytes};
ghost use Rattle.sheet.specs.inner.Replies.{replies_left};
ghost use Rattle.sheet.specs.WholeSheet.{sheet_answer, outcome, area_after};

use question::Refusal;
use record::CheckedSheet;
use reply::{reply_length, write_reply};

mod replies;

use crate::replies::Replies;

// No accepted sheet's answer is longer (`sheet_answer_short`).
const LONGEST_ANSWER: usize = 26624;

// How many bytes the replies to come have.
fn length_left(replies: Replies) -> usize
    requires { sum_by (λ reply. length (reply_bytes reply)) (replies_left replies) < 2 ^ 64 }
    ensures { result ≡ sum_by (λ reply. length (reply_bytes reply)) (replies_left replies.entry) }
{
    replies.map(reply_length).sum()
}

// The length of a sheet's answer.
#[tactic(auto, using(crate::proofs::AnswerOfReplies::answer_length_is, crate::proofs::AnswerBound::sheet_answer_short))]
fn answer_length(sheet: CheckedSheet) -> usize
    ensures { result ≡ length (sheet_answer sheet.entry.bytes.now) }
{
    length_left(Replies::of(sheet))
}

// Whether an area of so many bytes holds the whole answer. Only one that could be too short costs a walk.
#[tactic(auto, using(crate::proofs::AnswerBound::sheet_answer_short))]
fn answer_fits(sheet: CheckedSheet, room: usize) -> bool
    ensures { result ≡ leb (length (sheet_answer sheet.entry.bytes.now)) room }
{
    LONGEST_ANSWER <= room || answer_length(sheet) <= room
}

// Writes a sheet's answer, and says how long it is.
#[tactic(auto, using(crate::proofs::AnswerOfReplies::answer_is, reply::proofs::Writing::stored_from))]
fn write_answer(sheet: CheckedSheet, area: &mut [u8]) -> usize
    requires { length (sheet_answer sheet.bytes.now) ≤ length area.old }
    ensures { (result ≡ length (sheet_answer sheet.entry.bytes.now)) × (area.new ≡ sets area.old 0 (sheet_answer sheet.entry.bytes.now)) }
{
    let mut total = 0;
    for reply in Replies::of(sheet) {
        write_reply(&mut area[total..], reply);
        total += reply_length(reply);
    }
    total
}

// The entry: any sheet, any area. They are two slices, as a host hands them in: what is read, and where the answer goes.
#[tactic(auto, using(crate::proofs::WholeSheetRefusals::long_enough, reply::proofs::Writing::stored_first))]
pub fn answer_sheet(sheet: &[u8], area: &mut [u8]) -> Result<usize, Refusal>
    ensures { (result ≡ outcome sheet.now (length area.old)) × (area.new ≡ area_after sheet.now area.old) }
{
    let checked = CheckedSheet::check(sheet)?;
    if !answer_fits(checked, area.len()) {
        return Err(Refusal::AreaTooShort);
    }
    Ok(write_answer(checked, area))
}
