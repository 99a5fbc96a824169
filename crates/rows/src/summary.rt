//! Lines that tell of a run: of a generated script, and what a check has to say of the disk.

use crate::answers::{add_lines, plain_replies};
use crate::bench::Bench;
use crate::cause::{Cause, unread};
use crate::lines::{lines_in, number, split_lines};

/// What the plain machine tells of a script to which these are its replies: the lines, those accepted and those refused, and what `g`, the
/// one volume of a generated script, is charged for then.
pub fn plain_summary(bench: &Bench, replies: &[u8]) -> Result<Vec<u8>, Cause> {
    let lines = lines_in(replies);
    let refused = refused_in(replies);
    let accepted = lines.saturating_sub(refused);
    let charged = charged(bench)?;
    let line = format!(in bench.alloc;
        "generated {lines} ok {accepted} refused {refused} charged {charged}\n"
    )?;
    Ok(Vec::from_slice(bench.alloc, line.as_bytes())?)
}

/// How many replies refuse a line.
fn refused_in(replies: &[u8]) -> u64 {
    let mut count: u64 = 0;
    let mut rest = replies;
    for _ in 0..lines_in(replies) {
        let (line, after) = split_lines(rest, 1);
        if line.starts_with(b"err ") {
            count = count.saturating_add(1);
        }
        rest = after;
    }
    count
}

/// What `g` is charged for after the script; 0 where it isn't there.
fn charged(bench: &Bench) -> Result<u64, Cause> {
    let mut lines = Vec::from_slice(bench.alloc, bench.lines.as_slice())?;
    add_lines(&mut lines, bench.run.script.as_slice())?;
    let told = plain_text(bench, lines.as_slice(), b"vol stat g\n")?;
    charge_in(told.as_str())
}

/// The fourth word of what `vol stat` tells of a volume, which is its charge; 0 where it tells of none.
fn charge_in(told: &str) -> Result<u64, Cause> {
    match told.split(' ').nth(3) {
        Some(used) => number(used),
        None => Ok(0),
    }
}

/// What the plain machine replies after these lines, as text.
fn plain_text(bench: &Bench, lines: &[u8], script: &[u8]) -> Result<String, Cause> {
    let reply = plain_replies(bench.alloc, bench.blocks, lines, script)?;
    String::from_utf8(reply).ok().ok_or(unread())
}

/// What a check tells of a disk that stands for the plain machine: how many volumes there are, and the sum of their charges.
pub fn plain_verdict(bench: &Bench) -> Result<Vec<u8>, Cause> {
    let lines = bench.lines.as_slice();
    let names = plain_text(bench, lines, b"vol list\n")?;
    let mut asks = Vec::new(bench.alloc);
    let mut volumes: u64 = 0;
    for name in names.as_str().split_ascii_whitespace() {
        if name != "-" {
            volumes = volumes.saturating_add(1);
            asks.extend_from_slice(format!(in bench.alloc; "vol stat {name}\n")?.as_bytes())?;
        }
    }
    let told = plain_text(bench, lines, asks.as_slice())?;
    let mut charged: u64 = 0;
    for line in told.as_str().lines() {
        charged = charged.saturating_add(charge_in(line)?);
    }
    let line = format!(in bench.alloc; "valid volumes {volumes} charged {charged}\n")?;
    Ok(Vec::from_slice(bench.alloc, line.as_bytes())?)
}
