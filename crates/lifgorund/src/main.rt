// The program: a question sheet from standard input, its answer to standard output. The rooms and what is written are `program`'s.
#![tactic(auto)]

ghost use Rattle.std.specs.Prelude.{OnOk, IfSome};
ghost use Rattle.std.specs.Io.KnownBytes.{Appends};
ghost use Rattle.program.specs.Output.{program_output};

use program::{program_output, read_room};
use reading::read_part;
use std::io;
use std::io::{Read, Write};

// Writes the answer to the sheet that the input is. Of an input longer than a sheet may be, what is past the room is left.
fn answer_input<R: Read, W: Write>(input: &mut R, output: &mut W) -> io::Result<()>
    ensures { OnOk result (IfSome (R.remaining input.old) (λ sheet. Appends (W.contents output.old) (W.contents output.new) (program_output sheet))) }
{
    // (`program::answer_read` gives the area within a `Result`: to move it out of there costs a copy, and its room on the stack.)
    let mut room = read_room();
    let sheet = read_part(input, &mut room)?;
    let answer = program_output(sheet);
    output.write_all(answer.bytes())
}

fn main(rt: HostRuntime) -> io::Result<()> {
    answer_input(&mut rt.stdin(), &mut rt.stdout())
}
