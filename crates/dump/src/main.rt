//! The program: `dump FILE WORDS`. It makes the host over FILE and the standard streams, hands it with the other words to the top call, and
//! ends with the status that this answers.
#![tactic(auto)]

use fv_dump::dump;
use fv_filehost::FileHost;
use std::io::ErrorKind;
use std::process::ExitCode;
use std::{env, io};

/// There is no word that names the file.
const NO_FILE: u8 = 7;

/// The words can't be had for want of memory.
const NO_MEMORY: u8 = 6;

/// The words can't be had for another cause.
const NO_WORDS: u8 = 12;

fn main(rt: HostRuntime) -> ExitCode {
    ExitCode::from(status(&rt))
}

fn status(rt: &HostRuntime) -> u8 {
    match command_line(rt) {
        Ok(line) => run(rt, line),
        Err(fault) if fault.kind() == ErrorKind::OutOfMemory => NO_MEMORY,
        Err(_) => NO_WORDS,
    }
}

fn run(rt: &HostRuntime, line: CommandLine) -> u8 {
    let CommandLine { path, words } = line;
    match path {
        Some(path) => dump(
            rt.alloc(),
            words.as_slice(),
            &mut FileHost::to_look(*rt, path),
        ),
        None => NO_FILE,
    }
}

/// The words behind the program's name.
#[derive(Drop)]
struct CommandLine {
    /// The word that names the file.
    path: Option<String>,
    /// The words behind it.
    words: Vec<String>,
}

fn command_line(rt: &HostRuntime) -> io::Result<CommandLine> {
    let mut args = env::args(rt)?.skip(1);
    let path = args.next();
    let mut words = Vec::new(rt.alloc());
    for word in args {
        words.push(word)?;
    }
    Ok(CommandLine { path, words })
}
