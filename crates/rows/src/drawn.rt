//! Plays scripts that are drawn by lot.

use crate::bench::{Bench, Program};
use crate::cause::{Cause, because, unread};
use crate::drawing::{Drawing, Lot, draw, lot_of};
use crate::lines::{number, split_lines};
use crate::playing::{aggregate, begin_run, begin_walks, end_run};
use crate::walking::see_torn;
use std::alloc::AllocError;

/// How many tears are drawn from.
const TEARS: u64 = 12;

/// Plays the script of each seed of a range, each on a new aggregate. The row says how many lines each has, perhaps over how many volumes and
/// that they have snapshots, small removals or clones, at how many moments by lot it is stopped, and which refusals have to come among all replies.
pub fn play_drawn(bench: &mut Bench, text: &str) -> Result<(), Cause> {
    let words: Vec<&str> = text.split(' ').collect(bench.alloc)?;
    let [first, "to", last, "lines", lines, rest @ ..] = words.as_slice() else {
        return Err(unread());
    };
    let (over, rest) = match rest {
        ["over", over, rest @ ..] => (number(over)?, rest),
        rest => (0, rest),
    };
    let (snapshots, rest) = match rest {
        ["with", "snapshots", rest @ ..] => (true, rest),
        rest => (false, rest),
    };
    let (removals, rest) = match rest {
        ["with", "removals", rest @ ..] => (true, rest),
        rest => (false, rest),
    };
    let (clones, rest) = match rest {
        ["with", "clones", rest @ ..] => (true, rest),
        rest => (false, rest),
    };
    let kind = Drawing {
        lines: number(lines)?,
        over,
        snapshots,
        removals,
        clones,
    };
    play_seeds(bench, number(first)?, number(last)?, kind, rest)
}

/// Plays the scripts of these seeds. The words are the rest of the row.
fn play_seeds(
    bench: &mut Bench,
    first: u64,
    last: u64,
    kind: Drawing,
    words: &[&str],
) -> Result<(), Cause> {
    let ["stopped", stops, "refused", wanted @ ..] = words else {
        return Err(unread());
    };
    let stops = number(stops)?;
    let mut seen = [false; 17];
    for seed in first..=last {
        play_seed(bench, seed, kind, stops).map_err(|cause| because(cause.what, seed, cause.at))?;
        mark_refusals(bench.host.given(), &mut seen);
    }
    all_came(wanted, &seen)
}

/// Plays the script of a seed: its replies are those of the plain machine, and so is what the disk then stands for.
fn play_seed(bench: &mut Bench, seed: u64, kind: Drawing, stops: u64) -> Result<(), Cause> {
    let drawn = draw(bench.alloc, seed, kind)?;
    aggregate(bench, format!(in bench.alloc; "{}", drawn.blocks)?.as_str())?;
    begin_run(bench, Program::Flexvol, "run")?;
    bench.run.script = drawn.script;
    bench.run.looks = drawn.looks;
    bench.run.plain = true;
    begin_walks(bench)?;
    stop_by_lot(bench, &mut lot_of(!seed), stops)?;
    end_run(bench)
}

/// The run is stopped at so many moments, each with one tear.
fn stop_by_lot(bench: &Bench, lot: &mut Lot, stops: u64) -> Result<(), Cause> {
    for _ in 0..stops {
        let moment = lot.below(bench.host.moments());
        let tear = u32::try_from(lot.below(TEARS)).unwrap_or(0);
        let _ = see_torn(bench, &bench.host, moment, tear)?;
    }
    Ok(())
}

/// Marks the numbers of the refusals that were given.
fn mark_refusals(given: &[u8], seen: &mut [bool; 17]) {
    let mut rest = given;
    for _ in 0..given.len() {
        if rest.is_empty() {
            return;
        }
        let (line, after) = split_lines(rest, 1);
        if let Some(seen) = seen.get_mut(refusal_in(line)) {
            *seen = true;
        }
        rest = after;
    }
}

/// The number of the refusal that a reply line tells; 0 where it tells none.
fn refusal_in(line: &[u8]) -> usize {
    match line {
        [b'e', b'r', b'r', b' ', ones, b' ', ..] => digit(*ones),
        [b'e', b'r', b'r', b' ', tens, ones, b' ', ..] => {
            digit(*tens).saturating_mul(10).saturating_add(digit(*ones))
        }
        _ => 0,
    }
}

fn digit(byte: u8) -> usize {
    usize::from(byte.saturating_sub(b'0'))
}

/// Whether each of these refusals came.
fn all_came(wanted: &[&str], seen: &[bool; 17]) -> Result<(), Cause> {
    for word in wanted {
        let refusal = number(word)?;
        if seen.get(refusal as usize) != Some(&true) {
            return Err(because("a refusal never came", refusal, 0));
        }
    }
    Ok(())
}
