//! The program: `reference BLOCKS`, with a script on standard input, or `reference gen SEED COUNT`. It makes the host over the standard
//! streams, hands it with the words to the top call, and ends with the status that this answers.
#![tactic(auto)]

use fv_filehost::FileHost;
use fv_reference_run::reference;
use std::io::ErrorKind;
use std::process::ExitCode;
use std::{env, io};

/// The words can't be had for want of memory.
const NO_MEMORY: u8 = 6;

/// The words can't be had for another cause.
const NO_WORDS: u8 = 12;

fn main(rt: HostRuntime) -> ExitCode {
    ExitCode::from(status(&rt))
}

fn status(rt: &HostRuntime) -> u8 {
    match words(rt) {
        Ok(words) => run(rt, &words),
        Err(fault) if fault.kind() == ErrorKind::OutOfMemory => NO_MEMORY,
        Err(_) => NO_WORDS,
    }
}

/// The host's disk is never asked for a block, so that its file has no name.
fn run(rt: &HostRuntime, words: &Vec<String>) -> u8 {
    let mut host = FileHost::new(*rt, String::new(rt.alloc()));
    reference(rt.alloc(), words.as_slice(), &mut host)
}

/// The words behind the program's name.
fn words(rt: &HostRuntime) -> io::Result<Vec<String>> {
    let mut words = Vec::new(rt.alloc());
    for word in env::args(rt)?.skip(1) {
        words.push(word)?;
    }
    Ok(words)
}
