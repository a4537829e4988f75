// Small files, read whole into a lent slice, for the programs that read `events.csv` and `pattern.txt` (document 01, "The
// program and its example"). What a file holds no contract can say; the count is promised to lie within the slice.
//
//     let mut text = [0u8; 4097];
//     let count = files::read_whole(&rt, "events.csv", &mut text);
//     the file is the first count bytes of text; whoever lends a byte more than is taken sees that a file is too long.

#![tactic(auto)]

ghost use Rattle.std.specs.Prelude.{◌+◌, ◌≤◌, length, IfOk};
ghost use Rattle.io.specs.Counts.{IsPrefixLen};

use std::io::{ErrorKind, Read};
use std::rt::Files;
use std::{fs, io};

// Why no more was read.
#[derive(Clone, Copy)]
pub enum Stop {
    // The slice is full.
    Full,

    // The file has ended.
    Ended,

    // A read has failed.
    Failed(io::Error),
}

// How far a slice is filled, from its start, and why no further.
#[derive(Clone, Copy)]
pub struct Filled {
    pub held: usize,
    pub stop: Stop,
}

// A line on standard error: what could not be read or written, and why. Where that cannot be said, it is not.
pub fn say(rt: &impl Eprint, what: &str, error: io::Error) {
    let _ = eprintln!(rt; "{what}: {error}");
}

// The file of that name in the folder where the program runs, or none. That a file is missing is no failure; any other is said
// on standard error.
pub fn open<R: Files + Eprint>(rt: &R, path: &str) -> Option<R::File> {
    match fs::open(rt, path) {
        Ok(file) => Some(file),
        Err(error) => {
            if error.kind() != ErrorKind::NotFound {
                say(rt, path, error);
            }
            None
        }
    }
}

// Reads on after the bytes that are held, until the slice is full, the file ends or a read fails.
pub fn fill<R: Read>(file: &mut R, into: &mut [u8], front: usize) -> Filled
    requires { front ≤ length into.old }
    ensures { IsPrefixLen result.held into.new }
{
    let mut held = front;
    // Stays: each read brings as many bytes as it likes, so no range says the places.
    while held < into.len() {
        match file.read(&mut into[held..]) {
            Ok(0) => return Filled {
                held,
                stop: Stop::Ended,
            },
            Ok(count) => held += count,
            Err(error) => return Filled {
                held,
                stop: Stop::Failed(error),
            },
        }
    }
    Filled {
        held,
        stop: Stop::Full,
    }
}

// How many bytes of the file of that name, in the folder where the program runs, are in the slice from its start. "A missing file
// counts as empty", and so does one that cannot be read, which is said on standard error.
pub fn read_whole<R: Files + Eprint>(rt: &R, path: &str, into: &mut [u8]) -> usize
    ensures { IsPrefixLen result into.new }
{
    let Some(mut file) = open(rt, path) else {
        return 0;
    };
    let filled = fill(&mut file, into, 0);
    match filled.stop {
        Stop::Failed(error) => {
            say(rt, path, error);
            0
        }
        Stop::Full | Stop::Ended => filled.held,
    }
}
