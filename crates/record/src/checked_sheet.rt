// A sheet that is not refused as a whole.

ghost use Rattle.std.specs.Prelude.{◌≡◌, IfOk, IfErr, Ok, Err};
ghost use Rattle.record.specs.SheetCheck.{sheet_check};

use crate::check_sheet;
use question::Refusal;

// Its bytes: at most 8,192, and whole records of known kinds.
#[derive(Clone, Copy)]
pub struct CheckedSheet<'a> {
    pub bytes: &'a [u8],
    pub ghost checked: { sheet_check bytes.now ≡ Ok tt },
}

impl<'a> CheckedSheet<'a> {
    // The sheet as one, or its refusal: 10, 11 or 12.
    pub fn check(sheet: &'a [u8]) -> Result<CheckedSheet<'a>, Refusal>
        ensures same { IfOk result (λ checked. checked.bytes.now ≡ sheet.now) }
        ensures refused { IfErr result (λ why. sheet_check sheet.now ≡ Err why) }
    {
        check_sheet(sheet)?;
        Ok(CheckedSheet { bytes: sheet })
    }
}
