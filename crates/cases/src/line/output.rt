// A line on its way to an output.
ghost use Rattle.std.specs.Prelude.{◌≡◌, ◌++◌, [], ◌∷◌, take, OnOk, IsOk, IfSome};
ghost use Rattle.std.specs.Io.KnownBytes.{Appends, Keeps};
ghost use Rattle.cases.specs.inner.LineKnown.{known};

use super::Line;
use std::fmt::{Display, Write as _};
use std::io::Write;
use std::{fmt, io};

// Pieces of a line are gathered, and written where the next does not fit.
#[derive(Drop)]
pub(super) struct LineOutput<'a, O> {
    pub(super) output: &'a mut O,
    line: Line,
    // what a write failed with: `fmt::Error` says nothing of it
    pub(super) error: Option<io::Error>,
}

// A failed write's error is kept.
fn noted(written: io::Result<()>, error: &mut Option<io::Error>) -> fmt::Result
    ensures { IsOk result → IsOk written }
{
    match written {
        Ok(()) => Ok(()),
        Err(why) => {
            *error = Some(why);
            Err(fmt::Error)
        }
    }
}

impl<'a, O: Write> LineOutput<'a, O> {
    pub(super) fn new(output: &'a mut O) -> LineOutput<'a, O>
        ensures same_output { (result.output.ghost_name ≡ output.entry.ghost_name) × (result.output.now ≡ output.old) }
        ensures none_gathered { take result.line.length result.line.room ≡ [] }
    {
        LineOutput {
            output,
            line: Line::new(),
            error: None,
        }
    }

    // Writes the text that a value displays and the line's end, all that was gathered; of a value that fails, what it displayed before.
    pub(super) fn display<T: Display>(&mut self, value: &T) -> fmt::Result
        ensures { OnOk result (IfSome (T.output value.now) (λ text. (self.new.output.ghost_name ≡ self.old.output.ghost_name) × Appends (known O.contents self.old) (O.contents self.new.output.now) (text ++ 10 ∷ []))) }
    {
        match writeln!(self, "{value}") {
            Ok(()) => self.write_gathered(),
            Err(why) => {
                let _ = self.write_gathered();
                Err(why)
            }
        }
    }

    fn write_gathered(&mut self) -> fmt::Result
        ensures same_output { self.new.output.ghost_name ≡ self.old.output.ghost_name }
        ensures written { OnOk result (Keeps (known O.contents self.old) (known O.contents self.new)) }
        ensures none_gathered { take self.new.line.length self.new.line.room ≡ [] }
    {
        let written = match self.line.text() {
            [] => Ok(()),
            text => self.output.write_all(text),
        };
        self.line.clear();
        noted(written, &mut self.error)
    }

    // A piece that does not fit behind what was gathered. (Apart and not inlined, so that `write_str` is.)
    #[inline(never)]
    fn write_unfitting(&mut self, text: &str) -> fmt::Result
        ensures { OnOk result ((self.new.output.ghost_name ≡ self.old.output.ghost_name) × Appends (known O.contents self.old) (known O.contents self.new) text.now) }
    {
        self.write_gathered()?;
        if self.line.write_str(text).is_ok() {
            return Ok(());
        }
        noted(self.output.write_all(text.as_bytes()), &mut self.error)
    }
}

impl<O: Write> fmt::Write for LineOutput<'_, O> {
    ghost write_str_gives = { λ line text longer. (longer.output.ghost_name ≡ line.output.ghost_name) × Appends (known O.contents line) (known O.contents longer) text };

    fn write_str(&mut self, text: &str) -> fmt::Result {
        if self.line.write_str(text).is_ok() {
            return Ok(());
        }
        self.write_unfitting(text)
    }
}
