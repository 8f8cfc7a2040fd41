// Answers each sheet whose file an argument names: a line with the name, and the bytes that the program `lifgorund` would write, in hex: the rooms and
// the answering are those of that program.
// `cargo run --profile checked --bin sheets ../crates/sheets`, run in `compare/`, writes the files, `args` and `stdout`: the answers are the independent implementation's.
#![tactic(auto)]

use program::{program_output, read_room};
use reading::{each_argument, open_named, read_part, say_unread};
use std::io;
use std::io::Read;
use std::rt::Files;

fn print_bytes(out: &impl Print, bytes: &[u8]) -> io::Result<()> {
    for byte in bytes {
        print!(out; "{byte:02x}")?;
    }
    Ok(())
}

// (Without `program::answer_read`, for the reason that `lifgorund` gives.)
fn answer_file<P: Print, R: Read>(out: &P, file: &mut R) -> io::Result<()> {
    let mut room = read_room();
    let sheet = read_part(file, &mut room)?;
    print_bytes(out, program_output(sheet).bytes())
}

// (As `words` does, but for what is written. One function of both would hand the open file to a closure, whose parameter is a type of each host's own.)
fn answer_named<R: Print + Eprint + Files>(rt: &R, name: &[u8]) -> io::Result<()> {
    match open_named(rt, name) {
        Ok(mut file) => {
            // By `write_all`, as a file's name is bytes, perhaps no text.
            rt.write_all(name)?;
            print!(rt; " ")?;
            answer_file(rt, &mut file)?;
            println!(rt; "")
        }
        Err(error) => say_unread(rt, name, error),
    }
}

fn main(rt: HostRuntime) -> io::Result<()> {
    each_argument(&rt, &mut |name| answer_named(&rt, name))
}
