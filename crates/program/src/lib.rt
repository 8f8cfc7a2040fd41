// What the program reads and what it is to write: the rooms for a sheet and for its answer, and the answer's bytes. `specs/` says what these are.
#![tactic(auto)]

ghost use Rattle.std.specs.Prelude.{◌≡◌, ◌≤◌, length, take, replicate, IfOk, IfSome};
ghost use Rattle.program.specs.Output.{answer_room, read_room, program_output, area_with};

use reading::read_part;
use record::MAX_SHEET;
use sheet::answer_sheet;
use std::io;
use std::io::Read;

// One byte more than the longest sheet, so that a longer one is seen.
const READ_ROOM: usize = MAX_SHEET + 1;

// More than any sheet's answer fills.
const ANSWER_ROOM: usize = 65536;

// The kind of a refused sheet's record.
const SHEET_REFUSED: u8 = 69;

// The bytes to write: the first `length` of the area. No heap: the area has its room, whatever of it is filled.
#[derive(Clone, Copy)]
pub struct Output {
    pub area: [u8; ANSWER_ROOM],
    pub length: usize,
    ghost within: { length ≤ answer_room },
}

impl Output {
    pub fn bytes(&self) -> &[u8]
        ensures { result.now ≡ take self.now.length self.now.area }
    {
        &self.area[..self.length]
    }
}

// The room for what is read.
pub fn read_room() -> [u8; READ_ROOM]
    ensures { result ≡ replicate read_room 0 }
{
    [0u8; READ_ROOM]
}

// What the program writes for what it read, any bytes.
pub fn program_output(sheet: &[u8]) -> Output
    ensures { (result.length ≡ length (program_output sheet.now)) × (result.area ≡ area_with (program_output sheet.now)) }
{
    let mut area = [0u8; ANSWER_ROOM];
    match answer_sheet(sheet, &mut area) {
        Ok(length) => Output { area, length },
        Err(why) => {
            area[0] = SHEET_REFUSED;
            area[1] = why.number();
            Output { area, length: 2 }
        }
    }
}

// What the program writes for the sheet that the input is. Of an input longer than a sheet may be, what is past the room is left.
pub fn answer_read<R: Read>(input: &mut R) -> io::Result<Output>
    ensures { IfOk result (λ output. IfSome (R.remaining input.old) (λ sheet. (output.length ≡ length (program_output sheet)) × (output.area ≡ area_with (program_output sheet)))) }
{
    let mut room = read_room();
    let sheet = read_part(input, &mut room)?;
    Ok(program_output(sheet))
}
