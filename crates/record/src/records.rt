// The records of a sheet that has no fault, in order.

ghost use Rattle.std.specs.Prelude.{◌≡◌, IsOk};
ghost use Rattle.std.specs.Iterator.{YieldsFirst, item_count};
ghost use Rattle.record.specs.SheetCheck.{fault_after};

use crate::{CheckedSheet, Kind, Record, record_of};

// The bytes from the next record on.
#[derive(Clone, Copy)]
pub struct Records<'a> {
    rest: &'a [u8],
    ghost faultless: { IsOk (fault_after 0 rest.now) },
}

impl<'a> Records<'a> {
    ghost use Rattle.record.specs.Records.{records};
    ghost use Rattle.record.specs.RecordsLeft.{records_left};

    pub fn of(sheet: CheckedSheet<'a>) -> Records<'a>
        ensures { records_left result ≡ records sheet.entry.bytes.now }
    {
        Records { rest: sheet.bytes }
    }
}

impl<'a> Iterator for Records<'a> {
    ghost use Rattle.record.specs.RecordsLeft.{records_left};

    type Item = Record;

    ghost next_gives = { YieldsFirst records_left };

    ghost remaining = { item_count records_left };

    #[tactic(auto, using(crate::proofs::Scan::known_here, crate::proofs::Scan::whole_here, crate::proofs::Scan::faultless_later, crate::proofs::Scan::records_here), unfolding(crate::specs::Records::records_after))]
    #[inline(always)]
    fn next(&mut self) -> Option<Record> {
        let (first, after) = self.rest.split_first()?;
        let kind = Kind::try_from(*first).unwrap();
        let (_, rest) = after.split_at(kind.body_length());
        self.rest = rest;
        Some(record_of(kind, after))
    }
}
