//! The program: its words, the current folder and standard output.
#![tactic(auto)]

use kat_io::{FolderShelf, StdoutSink};
use kat_model::NoMemory;
use kat_tool::{Words, run};
use std::process::ExitCode;
use std::rt::{Env, Files};
use std::{env, io};

// Why the words cannot be read.
enum NoWords {
    Memory,
    System,
}

impl From<io::Error> for NoWords {
    fn from(error: io::Error) -> Self {
        if error.kind() == io::ErrorKind::OutOfMemory {
            NoWords::Memory
        } else {
            NoWords::System
        }
    }
}

impl From<NoMemory> for NoWords {
    fn from(_: NoMemory) -> Self {
        NoWords::Memory
    }
}

// Appends the words without the program's name.
fn push_words(rt: &(impl Env + AllocGlobal), words: &mut Words) -> Result<(), NoWords> {
    for word in env::args(rt)?.skip(1) {
        words.push(word.as_str())?;
    }
    Ok(())
}

// Runs the words over the current folder and the standard output, and returns the status.
fn status_of(rt: &(impl Files + Print + AllocGlobal), words: &Words) -> u8 {
    let mut shelf = FolderShelf::new(rt);
    let mut sink = StdoutSink::new(rt);
    run(rt.alloc(), words, &mut shelf, &mut sink)
}

// Ends with the status of `run`. If the words cannot be read, nothing is printed; the status is 6 when out of memory,
// and 8 if the system does not give the words.
fn main(rt: HostRuntime) -> ExitCode {
    let mut words = Words::new(rt.alloc());
    let status = match push_words(&rt, &mut words) {
        Ok(()) => status_of(&rt, &words),
        Err(NoWords::Memory) => 6,
        Err(NoWords::System) => 8,
    };
    ExitCode::from(status)
}
