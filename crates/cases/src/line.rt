// A line that a value displays, written at once where it fits a room.
ghost use Rattle.std.specs.Prelude.{◌≡◌, ◌≤◌, ◌++◌, [], ◌∷◌, take, OnOk, OnErr, IfSome, IsOk};
ghost use Rattle.std.specs.Io.KnownBytes.{Appends};
ghost use Rattle.cases.specs.declared.line.TheConstants.{LINE_ROOM};

mod output;

use output::LineOutput;
use std::fmt::{Display, Write as _};
use std::io::Write;
use std::{fmt, io};

// A report of twelve numbers of twenty digits fits.
const LINE_ROOM: usize = 512;

// A line's text, gathered so that it is written by one call of the system: a value is displayed in pieces. Its room is fixed, as there is no heap.
#[derive(Drop)]
struct Line {
    room: [u8; LINE_ROOM],
    length: usize,
    ghost fits: { length ≤ LINE_ROOM },
}

impl Line {
    fn new() -> Line
        ensures { take result.length result.room ≡ [] }
    {
        Line {
            room: [0; LINE_ROOM],
            length: 0,
        }
    }

    fn text(&self) -> &[u8]
        ensures { result.now ≡ take self.now.length self.now.room }
    {
        &self.room[..self.length]
    }

    fn clear(&mut self)
        ensures { take self.new.length self.new.room ≡ [] }
    {
        self.length = 0;
    }
}

impl fmt::Write for Line {
    ghost write_str_gives = { λ line text longer. take longer.length longer.room ≡ take line.length line.room ++ text };

    // Text that does not fit leaves the line as it was.
    fn write_str(&mut self, text: &str) -> fmt::Result
        ensures ok { IsOk result → take self.new.length self.new.room ≡ take self.old.length self.old.room ++ text.now }
        ensures err { OnErr result (take self.new.length self.new.room ≡ take self.old.length self.old.room) }
    {
        if LINE_ROOM - self.length < text.len() {
            return Err(fmt::Error);
        }
        let end = self.length + text.len();
        self.room[self.length..end].copy_from_slice(text.as_bytes());
        self.length = end;
        Ok(())
    }
}

// Writes the line that a value displays: by one call where it fits the room. The value is displayed once, as a second time it may display something else.
#[tactic(auto, using(crate::proofs::Written::first_gathered))]
pub(crate) fn write_line<O: Write, T: Display>(output: &mut O, value: &T) -> io::Result<()>
    ensures { OnOk result (IfSome (T.output value.now) (λ text. Appends (O.contents output.old) (O.contents output.new) (text ++ 10 ∷ []))) }
{
    let mut line = LineOutput::new(output);
    let written = line.display(value);
    let LineOutput { output, error, .. } = line;
    // No effect at run time: the proof reads from it what the output holds.
    let _ = &*output;
    match (error, written) {
        (Some(why), _) => Err(why),
        (None, Ok(())) => Ok(()),
        (None, Err(why)) => Err(io::Error::from(why)),
    }
}
