// The replies to the records of a sheet that has no fault, in order.

ghost use Rattle.std.specs.Prelude.{◌≡◌};
ghost use Rattle.std.specs.Iterator.{YieldsFirst, item_count};
ghost use Rattle.sheet.specs.inner.Replies.{sheet_replies, replies_left};

use answering::State;
use question::Refusal;
use record::{CheckedSheet, Records};
use verdict::Verdict;

// The records to come, and the state that those before them left.
#[derive(Clone, Copy)]
pub(crate) struct Replies<'a> {
    records: Records<'a>,
    state: State,
}

impl<'a> Replies<'a> {
    pub(crate) fn of(sheet: CheckedSheet<'a>) -> Replies<'a>
        ensures { replies_left result ≡ sheet_replies sheet.entry.bytes.now }
    {
        Replies {
            records: Records::of(sheet),
            state: State::new(),
        }
    }
}

impl<'a> Iterator for Replies<'a> {
    type Item = Option<Result<Verdict, Refusal>>;

    ghost next_gives = { YieldsFirst replies_left };

    ghost remaining = { item_count replies_left };

    #[tactic(auto, unfolding(crate::specs::inner::Replies::replies_from))]
    #[inline(always)]
    fn next(&mut self) -> Option<Option<Result<Verdict, Refusal>>> {
        let record = self.records.next()?;
        let (state, reply) = self.state.answer(record);
        self.state = state;
        Some(reply)
    }
}
