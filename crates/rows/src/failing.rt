//! Runs in which a call fails.

use crate::answers::{look_at, settled, start};
use crate::bench::Bench;
use crate::cause::{Cause, because, unread};
use crate::lines::{number, split_lines};
use crate::walking::{see, unseen, with_tears};
use fv_disk::Disk;
use fv_memdisk::{Call, MemHost};

/// More calls of a kind than a run of a row makes.
const MOST_CALLS: u64 = 100_000;

/// A kind of calls, and what comes of one that fails.
#[derive(Clone, Copy)]
struct Kind {
    name: &'static str,
    call: Call,
    /// The status of the run.
    status: u64,
    /// How many faults the disk then counts.
    faults: u64,
    /// How many of them are of writes and barriers.
    write_faults: u64,
}

fn kinds() -> [Kind; 5] {
    [
        named("read", Call::Read, 5, 1, 0),
        named("write", Call::Write, 5, 1, 1),
        named("barrier", Call::Barrier, 5, 1, 1),
        named("take", Call::Take, 3, 0, 0),
        named("give", Call::Give, 4, 0, 0),
    ]
}

fn named(name: &'static str, call: Call, status: u64, faults: u64, write_faults: u64) -> Kind {
    Kind {
        name,
        call,
        status,
        faults,
        write_faults,
    }
}

fn kind_of(word: &str) -> Result<Kind, Cause> {
    for kind in kinds() {
        if kind.name == word {
            return Ok(kind);
        }
    }
    Err(unread())
}

/// One call of a run that fails, and what then is wanted.
#[derive(Clone, Copy)]
struct Failing {
    kind: Kind,
    /// Which call of its kind it is, from 1.
    nth: u64,
    status: u64,
    /// With how many tears the disk is looked at.
    tears: u32,
    /// How many lines are given, where that is told.
    replies: Option<u64>,
    /// For how many first lines the disk stands then, where that is told.
    stands: Option<u64>,
}

/// A call fails, or each call of each kind in turn.
pub fn try_failing(bench: &Bench, text: &str) -> Result<(), Cause> {
    let (walk, tears) = with_tears(text)?;
    let words: Vec<&str> = walk.split(' ').collect(bench.alloc)?;
    match words.as_slice() {
        ["each", counts @ ..] => each_fails(bench, counts, tears),
        [call, nth, status, wanted @ ..] => {
            let failing = Failing {
                kind: kind_of(call)?,
                nth: number(nth)?,
                status: number(status)?,
                tears,
                replies: None,
                stands: None,
            };
            one_fails(bench, wanting(failing, wanted)?)
        }
        _ => Err(unread()),
    }
}

/// Adds what is wanted of a run whose call fails, as `replies 3 stands 2`.
fn wanting(failing: Failing, words: &[&str]) -> Result<Failing, Cause> {
    let mut failing = failing;
    for pair in words.chunks(2) {
        match pair {
            ["replies", lines] => failing.replies = Some(number(lines)?),
            ["stands", lines] => failing.stands = Some(number(lines)?),
            _ => return Err(unread()),
        }
    }
    Ok(failing)
}

fn one_fails(bench: &Bench, failing: Failing) -> Result<(), Cause> {
    if fails(bench, failing)? {
        Ok(())
    } else {
        Err(because("there is no such call", failing.nth, 0))
    }
}

/// Each call of each kind fails in turn, until a run in which none does. There are so many calls of some kinds, as `5 reads 1 barrier`.
fn each_fails(bench: &Bench, counts: &[&str], tears: u32) -> Result<(), Cause> {
    for kind in kinds() {
        let calls = calls_of(bench, kind, tears)?;
        for pair in counts.chunks(2) {
            let [count, name] = pair else {
                return Err(unread());
            };
            let counted = kind_of(name.strip_suffix("s").unwrap_or(*name))?;
            if counted.call == kind.call && number(count)? != calls {
                return Err(because(kind.name, calls, 0));
            }
        }
    }
    Ok(())
}

/// How many calls of a kind the run makes, each of which ends it where it fails.
fn calls_of(bench: &Bench, kind: Kind, tears: u32) -> Result<u64, Cause> {
    for nth in 1..MOST_CALLS {
        let failing = Failing {
            kind,
            nth,
            status: kind.status,
            tears,
            replies: None,
            stands: None,
        };
        if !fails(bench, failing)? {
            return Ok(nth - 1);
        }
    }
    Ok(MOST_CALLS)
}

/// Whether the run makes the call. If it does, the call fails, and the run has to end as is wanted then.
fn fails(bench: &Bench, failing: Failing) -> Result<bool, Cause> {
    let mut host = settled(&bench.before)?;
    host.fail(failing.kind.call, failing.nth.saturating_sub(1))?;
    let ended = start(bench.alloc, &bench.run, &mut host)?;
    if ended == bench.run.status && host.given() == bench.host.given() {
        return Ok(false);
    }
    if ended != failing.status {
        return Err(because(failing.kind.name, failing.nth, ended));
    }
    judge(bench, failing, &mut host)?;
    Ok(true)
}

/// Looks at what a run leaves that a failed call has ended: its output is a first part of the whole, its disk counts that fault alone,
/// and stands for lines for which it may stand.
fn judge(bench: &Bench, failing: Failing, host: &mut MemHost) -> Result<(), Cause> {
    let whole = bench.host.given();
    let is_part = match failing.replies {
        Some(lines) => host.given() == split_lines(whole, lines).0,
        None => whole.starts_with(host.given()),
    };
    if !is_part {
        return Err(because("no part of the output", failing.nth, 0));
    }
    if host.faults() != failing.kind.faults || host.write_faults() != failing.kind.write_faults {
        return Err(because("faults of the disk", failing.nth, host.faults()));
    }
    if bench.course.looks.is_empty() {
        return Ok(());
    }
    see(
        bench,
        host,
        host.moments().saturating_sub(1),
        failing.tears,
        &mut unseen(bench)?,
    )?;
    match failing.stands {
        Some(lines) => judge_disk(bench, lines, host),
        None => Ok(()),
    }
}

/// Whether the disk stands for so many first lines as it reads.
fn judge_disk(bench: &Bench, lines: u64, host: &MemHost) -> Result<(), Cause> {
    let look = look_at(bench.alloc, &mut settled(host)?, bench.run.asks())?;
    if bench.course.is_after(lines, look.as_slice()) {
        Ok(())
    } else {
        Err(because("the disk stands for other lines", lines, 0))
    }
}
