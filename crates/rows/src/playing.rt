//! Plays a run, and judges what comes of it.

use crate::answers::{add_lines, look_at, plain_replies, settled, start};
use crate::bench::{Bench, Program, clear, new_run};
use crate::cause::{Cause, because};
use crate::course::{course_of, order_of};
use crate::lines::{add_word, first_difference, lines_in, number, split_lines};
use crate::summary::{plain_summary, plain_verdict};
use fv_run::Order;
use std::alloc::AllocError;

/// The disk gets a new aggregate.
pub fn aggregate(bench: &mut Bench, blocks: &str) -> Result<(), Cause> {
    let mut run = new_run(bench.alloc, Program::Flexvol);
    add_word(bench.alloc, &mut run.words, "create")?;
    add_word(bench.alloc, &mut run.words, blocks)?;
    let status = start(bench.alloc, &run, &mut bench.host)?;
    bench.host = settled(&bench.host)?;
    bench.blocks = number(blocks)?;
    bench.lines.clear();
    if status == 0 {
        Ok(())
    } else {
        Err(because("the status", status, 0))
    }
}

/// The disk gets the image of an aggregate: its bytes come, and the lines after which it stands for the plain machine.
pub fn image(bench: &mut Bench, blocks: &str) -> Result<(), Cause> {
    clear(bench);
    bench.blocks = number(blocks)?;
    Ok(())
}

/// The disk is kept, with the plain machine for which it stands.
pub fn keep(bench: &mut Bench) -> Result<(), Cause> {
    bench.kept.host = settled(&bench.host)?;
    bench.kept.blocks = bench.blocks;
    bench.kept.lines = Vec::from_slice(bench.alloc, bench.lines.as_slice())?;
    Ok(())
}

/// The disk becomes the one that was kept.
pub fn take_kept(bench: &mut Bench) -> Result<(), Cause> {
    clear(bench);
    bench.host = settled(&bench.kept.host)?;
    bench.blocks = bench.kept.blocks;
    add_lines(&mut bench.lines, bench.kept.lines.as_slice())?;
    Ok(())
}

/// A run begins. Its lines come.
pub fn begin_run(bench: &mut Bench, program: Program, text: &str) -> Result<(), Cause> {
    bench.runs = bench.runs.saturating_add(1);
    bench.runs_on = true;
    bench.is_played = false;
    bench.run = new_run(bench.alloc, program);
    if text.is_empty() {
        return Ok(());
    }
    for word in text.split(' ') {
        add_word(bench.alloc, &mut bench.run.words, word)?;
    }
    Ok(())
}

/// The walks of a run begin, once it was played.
pub fn begin_walks(bench: &mut Bench) -> Result<(), Cause> {
    if !bench.is_played {
        play(bench)?;
        bench.course = course_of(bench)?;
    }
    Ok(())
}

/// A run ends, if one goes on. The disk then stands for the lines for which it has to.
pub fn end_run(bench: &mut Bench) -> Result<(), Cause> {
    if !bench.runs_on || !bench.goes_on {
        return Ok(());
    }
    if !bench.is_played {
        play(bench)?;
    }
    bench.runs_on = false;
    settle(bench)?;
    judge_disk(bench)
}

fn play(bench: &mut Bench) -> Result<(), Cause> {
    bench.is_played = true;
    bench.before = settled(&bench.host)?;
    bench.host = settled(&bench.before)?;
    let status = start(bench.alloc, &bench.run, &mut bench.host)?;
    if status == bench.run.status {
        judge_output(bench)
    } else {
        Err(because("the status", status, 0))
    }
}

/// Whether the replies are those that are wanted.
fn judge_output(bench: &Bench) -> Result<(), Cause> {
    let given = bench.host.given();
    if bench.run.plain {
        let wanted = plain_output(bench)?;
        if let Some(line) = first_difference(given, wanted.as_slice()) {
            return Err(because("a reply line isn't the plain machine's", line, 0));
        }
        if bench.run.replies.is_empty() {
            return Ok(());
        }
    }
    match first_difference(given, bench.run.replies.as_slice()) {
        Some(line) => Err(because("a reply line is another", line, 0)),
        None => Ok(()),
    }
}

/// What the plain machine gives out for a script: its replies and their number, or the line that tells of a generated one.
fn plain_output(bench: &Bench) -> Result<Vec<u8>, Cause> {
    if bench.blocks == 0 {
        return Err(because("the plain machine isn't known", 0, 0));
    }
    let script = bench.run.script.as_slice();
    let lines = bench.lines.as_slice();
    let mut output = plain_replies(bench.alloc, bench.blocks, lines, script)?;
    if let Some(Order::Gen { .. }) = order_of(bench) {
        return plain_summary(bench, output.as_slice());
    }
    let count = lines_in(output.as_slice());
    output.extend_from_slice(format!(in bench.alloc; "done {count}\n")?.as_bytes())?;
    Ok(output)
}

/// The disk stands for another plain machine after a run: a new one, the one after the lines that count, or one that isn't known.
fn settle(bench: &mut Bench) -> Result<(), AllocError> {
    match order_of(bench) {
        Some(Order::Create { blocks }) => {
            bench.lines.clear();
            bench.blocks = if bench.run.status == 0 {
                u64::from(blocks)
            } else {
                0
            };
            Ok(())
        }
        Some(Order::Run | Order::Gen { .. }) => {
            let script = bench.run.script.as_slice();
            match bench.run.stands {
                Some(lines) => add_lines(&mut bench.lines, split_lines(script, lines).0),
                None if bench.run.status == 0 => add_lines(&mut bench.lines, script),
                None => {
                    bench.blocks = 0;
                    Ok(())
                }
            }
        }
        // A disk with faults stands for no machine.
        Some(Order::Check) if bench.run.status != 0 => {
            bench.blocks = 0;
            Ok(())
        }
        Some(Order::Check) | None => Ok(()),
    }
}

/// Whether the disk answers as the plain machine for which it has to stand.
fn judge_disk(bench: &Bench) -> Result<(), Cause> {
    if bench.blocks == 0 {
        return Ok(());
    }
    let asks = bench.run.asks();
    let wanted = plain_replies(bench.alloc, bench.blocks, bench.lines.as_slice(), asks)?;
    let look = look_at(bench.alloc, &mut settled(&bench.host)?, asks)?;
    if look.as_slice() == wanted.as_slice() {
        judge_soundness(bench)
    } else {
        Err(because("the disk stands for other lines", 0, 0))
    }
}

/// Whether a check of the disk counts the volumes of the plain machine and what they are charged for; or finds faults, where the row says so.
fn judge_soundness(bench: &Bench) -> Result<(), Cause> {
    let mut run = new_run(bench.alloc, Program::Flexvol);
    add_word(bench.alloc, &mut run.words, "check")?;
    let mut host = settled(&bench.host)?;
    let status = start(bench.alloc, &run, &mut host)?;
    let wanted = plain_verdict(bench)?;
    let as_wanted = if bench.run.unsound {
        status == 1
    } else {
        status == 0 && host.given() == wanted.as_slice()
    };
    if as_wanted {
        Ok(())
    } else {
        Err(because("a check says otherwise", status, 0))
    }
}
