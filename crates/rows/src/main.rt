//! Runs the rows of `data/`: scripts over a host in memory, with the replies that are wanted, with failing calls and with crashes.
//!
//! It prints a line for each case that comes out otherwise, and at the end how many cases and runs there were. `README.md` says how a
//! row is written.
#![tactic(auto)]

mod answers;
mod bench;
mod blocks;
mod cause;
mod course;
mod delayed;
mod drawing;
mod drawn;
mod failing;
mod lines;
mod playing;
mod reading;
mod summary;
mod walking;

use crate::bench::{Bench, clear, new_bench};
use crate::cause::Cause;
use crate::playing::end_run;
use crate::reading::read_text;
use std::{fs, io};

fn main(rt: HostRuntime) -> io::Result<()> {
    let mut bench = new_bench(rt.alloc());
    for entry in fs::read_dir(&rt, ".")? {
        let entry = entry?;
        let path = entry.path();
        if path.as_str().ends_with(".row") {
            let text = fs::read_to_string(&rt, path.as_str())?;
            play_file(&rt, path.as_str(), text.as_str(), &mut bench)?;
        }
    }
    println!(rt; "{} cases, {} runs", bench.cases, bench.runs)
}

/// Plays the cases of a file. Where one comes out otherwise, that is told, and the rest of the case left out.
fn play_file(rt: &HostRuntime, path: &str, text: &str, bench: &mut Bench) -> io::Result<()> {
    clear(bench);
    let mut line: u64 = 0;
    for text in text.lines() {
        line = line.saturating_add(1);
        if text.starts_with("case ") {
            let done = end_run(bench);
            tell(rt, path, line, bench, done)?;
            clear(bench);
            bench.cases = bench.cases.saturating_add(1);
        } else {
            let done = read_text(bench, text);
            tell(rt, path, line, bench, done)?;
        }
    }
    let done = end_run(bench);
    tell(rt, path, line, bench, done)
}

/// Tells how a case came out otherwise, if it did.
fn tell(
    rt: &HostRuntime,
    path: &str,
    line: u64,
    bench: &mut Bench,
    done: Result<(), Cause>,
) -> io::Result<()> {
    match done {
        Ok(()) => Ok(()),
        Err(cause) => {
            bench.goes_on = false;
            let Cause { what, at, found } = cause;
            println!(rt; "{path}, line {line}: {what} ({at}, {found})")
        }
    }
}
