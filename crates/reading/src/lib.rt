// What the programs read: their arguments, and files or standard input, into rooms that they lend. Nothing here allocates.
#![tactic(auto)]

ghost use Rattle.std.specs.Prelude.{◌≡◌, ◌≤◌, List, ℕ, length, take, Err, OnOk, IfOk, IfErr, IfSome, IsUtf8};
ghost use Rattle.std.specs.Fn.{CalledAt};
ghost use Rattle.std.specs.Io.KnownBytes.{Consumes};
ghost use Rattle.reading.specs.Calls.{CalledInTurn};

use std::env::FillError;
use std::io::Read;
use std::rt::{Env, Files};
use std::{fs, io, str};

// As long as the longest name of a file: a room for an argument.
pub const NAME_ROOM: usize = 4096;

// How many arguments there are, the program's own name among them.
pub fn argument_count<E: Env>(env: &E) -> usize {
    (0..usize::MAX)
        .find(|k| matches!(env.arg(*k, &mut []), Err(FillError::NotPresent)))
        .unwrap_or(usize::MAX)
}

// Puts an argument at the start of the room, and returns its length: 0 where there is none of that number, or it is longer than the room. (0 is enough, as no file has an empty name.)
pub fn argument<E: Env>(env: &E, k: usize, room: &mut [u8]) -> usize
    ensures { (result ≤ length room.new) × (result ≡ length (take result room.new)) }
{
    env.arg(k, room).unwrap_or(0)
}

// The part of the room that an argument fills.
pub fn argument_part<'a, E: Env>(env: &E, k: usize, room: &'a mut [u8]) -> &'a [u8]
    ensures { length result.now ≤ length room.old }
{
    let length = argument(env, k, room);
    &room[..length]
}

// Calls the closure with each argument behind the program's own name, in their order, until a call fails.
pub fn each_argument<E: Env, F: FnMut(&[u8]) -> io::Result<()>>(
    env: &E,
    f: &mut F,
) -> io::Result<()>
    requires { F.IsAlwaysCallable f.old }
    ensures ends { OnOk result ((names : List (List ℕ)) × CalledInTurn F.FnMut f.old names f.new) }
    ensures stops { IfErr result (λ error. (names : List (List ℕ)) × (name : List ℕ) × (last : F)
        × CalledInTurn F.FnMut f.old names last × CalledAt F.FnMut last name (Err error) f.new) }
{
    let mut room = [0u8; NAME_ROOM];
    for k in 1..argument_count(env) {
        f(argument_part(env, k, &mut room))?;
    }
    Ok(())
}

// Opens the file of that name for reading. A name that is no text is no file's here.
pub fn open_named<F: Files>(files: &F, name: &[u8]) -> io::Result<F::File>
    ensures { IfOk result (λ file. IsUtf8 name.now) }
{
    match str::from_utf8(name) {
        Ok(text) => fs::open(files, text),
        Err(_) => Err(io::Error::from(io::ErrorKind::InvalidFilename)),
    }
}

// Says on standard error which file is not read, and why.
pub fn say_unread<E: Eprint>(to: &E, name: &[u8], error: io::Error) -> io::Result<()> {
    match str::from_utf8(name) {
        Ok(text) => eprintln!(to; "{text}: {error}"),
        Err(_) => eprintln!(to; "a name that is no text: {error}"),
    }
}

// Reads until the room is full or the input ends, and returns how many bytes it put at the room's start: the input's first, as many as the room has.
pub fn read_full<R: Read>(reader: &mut R, room: &mut [u8]) -> io::Result<usize>
    ensures within { IfOk result (λ n. (n ≤ length room.new) × (n ≡ length (take n room.new))) }
    ensures bytes { IfOk result (λ n. IfSome (R.remaining reader.old) (λ input. take n room.new ≡ take (length room.new) input)) }
    ensures rest { IfOk result (λ n. Consumes (R.remaining reader.old) (R.remaining reader.new) (take n room.new)) }
{
    // The library's `read_exact` fails where the input ends before the room, and `read_to_end` allocates.
    let mut at = 0;
    while at < room.len() {
        let n = reader.read(&mut room[at..])?;
        if n == 0 {
            return Ok(at);
        }
        at += n;
    }
    Ok(at)
}

// Reads so, and gives the part of the room that it filled.
pub fn read_part<'a, R: Read>(reader: &mut R, room: &'a mut [u8]) -> io::Result<&'a [u8]>
    ensures bytes { IfOk result (λ read. IfSome (R.remaining reader.old) (λ input. read.now ≡ take (length room.old) input)) }
    ensures rest { IfOk result (λ read. Consumes (R.remaining reader.old) (R.remaining reader.new) read.now) }
{
    let n = read_full(reader, room)?;
    Ok(&room[..n])
}

#[cfg(test)]
mod tests {
    use super::*;

    // Three arguments, the last longer than four bytes.
    struct Given {}

    impl Env for Given {
        fn arg(&self, i: usize, buf: &mut [u8]) -> Result<usize, FillError> {
            let words: [&[u8]; 3] = [b"name", b"", b"longer"];
            match words.get(i) {
                Some(word) => put(word, buf),
                None => Err(FillError::NotPresent),
            }
        }

        fn var(&self, _name: &str, _buf: &mut [u8]) -> Result<usize, FillError> {
            Err(FillError::NotPresent)
        }

        fn var_at(&self, _i: usize, _buf: &mut [u8]) -> Result<usize, FillError> {
            Err(FillError::NotPresent)
        }
    }

    fn put(word: &[u8], buf: &mut [u8]) -> Result<usize, FillError>
        ensures { IfOk result (λ n. (n ≤ length buf.new) × (n ≡ length (take n buf.new))) }
    {
        if buf.len() < word.len() {
            return Err(FillError::TooLong);
        }
        buf[..word.len()].copy_from_slice(word);
        Ok(word.len())
    }

    // Gives one byte a read, and fails at the end.
    #[derive(Drop)]
    struct Failing {
        left: u8,
    }

    impl Read for Failing {
        fn read(&mut self, buf: &mut [u8]) -> io::Result<usize> {
            if self.left == 0 {
                return Err(io::Error::from(io::ErrorKind::Other));
            }
            if buf.is_empty() {
                return Ok(0);
            }
            buf[0] = self.left;
            self.left -= 1;
            Ok(1)
        }
    }

    #[test]
    fn arguments_are_counted(rt: HostRuntime) {
        let mut room = [0u8; 4];
        assert_eq!(rt; argument_count(&Given {}), 3);
        assert_eq!(rt; argument(&Given {}, 0, &mut room), 4);
        assert!(rt; room == *b"name");
        for k in 1..4 {
            assert_eq!(rt; argument(&Given {}, k, &mut room), 0, "argument {k}");
        }
        assert!(rt; argument_part(&Given {}, 0, &mut room) == b"name".as_slice());
    }

    #[test]
    fn each_argument_but_the_first(rt: HostRuntime) {
        let mut total = 0usize;
        let mut add = |name: &[u8]| {
            total = total.saturating_add(name.len());
            Ok(())
        };
        assert!(rt; each_argument(&Given {}, &mut add).is_ok());
        assert_eq!(rt; total, 6);
        let mut fail = |_name: &[u8]| Err(io::Error::from(io::ErrorKind::Other));
        assert!(rt; each_argument(&Given {}, &mut fail).is_err());
    }

    #[test]
    fn input_is_cut_at_the_room(rt: HostRuntime) {
        let mut room = [0u8; 4];
        let mut long: &[u8] = b"longer";
        assert!(rt; matches!(read_full(&mut long, &mut room), Ok(4)));
        assert!(rt; room == *b"long");
        let mut short: &[u8] = b"ab";
        assert!(rt; matches!(read_full(&mut short, &mut room), Ok(2)));
        assert!(rt; room == *b"abng");
        let mut part: &[u8] = b"cd";
        assert!(rt; matches!(read_part(&mut part, &mut room), Ok(b"cd")));
    }

    #[test]
    fn failed_read_is_no_end(rt: HostRuntime) {
        let mut room = [0u8; 4];
        let mut failing = Failing { left: 6 };
        assert!(rt; matches!(read_full(&mut failing, &mut room), Ok(4)));
        assert!(rt; room == [6, 5, 4, 3]);
        assert!(rt; read_full(&mut failing, &mut room).is_err());
    }
}
