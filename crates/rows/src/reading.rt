//! Reads the lines of a row, and does what they say.

use crate::answers::settled;
use crate::bench::{Bench, Program, Run};
use crate::blocks::{copy, is_damaged, is_word, lay, set, zero};
use crate::cause::{Cause, unread};
use crate::delayed::{are_delayed, are_free};
use crate::drawn::play_drawn;
use crate::failing::try_failing;
use crate::lines::{add_line, line_of, number, read_spread};
use crate::playing::{aggregate, begin_run, begin_walks, end_run, image, keep, take_kept};
use crate::walking::{pointed, stopped};

/// Does what a line of a file says: nothing for a remark, and else what each line says for which it stands.
pub fn read_text(bench: &mut Bench, text: &str) -> Result<(), Cause> {
    if text.is_empty() || text.starts_with('#') || !bench.goes_on {
        return Ok(());
    }
    let spread = read_spread(text)?;
    for number in spread.first..=spread.last {
        let line = line_of(bench.alloc, &spread, number)?;
        read_line(bench, line.as_str())?;
    }
    Ok(())
}

fn read_line(bench: &mut Bench, line: &str) -> Result<(), Cause> {
    let (word, rest) = line.split_once(' ').unwrap_or((line, ""));
    if bench.runs_on && read_run(bench, word, rest)? {
        return Ok(());
    }
    end_run(bench)?;
    read_step(bench, word, rest)
}

/// Reads a line of a run, if it is one: what is wanted of it, and then its walks.
fn read_run(bench: &mut Bench, word: &str, rest: &str) -> Result<bool, Cause> {
    match word {
        "stopped" => {
            begin_walks(bench)?;
            stopped(bench, rest)?;
        }
        "points" => {
            begin_walks(bench)?;
            pointed(bench, number(rest)?)?;
        }
        "failing" => {
            begin_walks(bench)?;
            try_failing(bench, rest)?;
        }
        _ if bench.is_played => return Ok(false),
        _ => return read_wanted(&mut bench.run, word, rest),
    }
    Ok(true)
}

/// Reads what is wanted of a run, if the line says it.
fn read_wanted(run: &mut Run, word: &str, rest: &str) -> Result<bool, Cause> {
    match word {
        ">" => add_line(&mut run.script, rest)?,
        "<" => add_line(&mut run.replies, rest)?,
        "?" => add_line(&mut run.looks, rest)?,
        "as" if rest == "the plain machine" => run.plain = true,
        "no" if rest == "line end" => {
            let _ = run.script.pop();
        }
        "limit" => run.program = Program::Script(number(rest)?),
        "status" => run.status = number(rest)?,
        "stands" => run.stands = Some(number(rest)?),
        "unsound" => run.unsound = true,
        _ => return Ok(false),
    }
    Ok(true)
}

fn read_step(bench: &mut Bench, word: &str, rest: &str) -> Result<(), Cause> {
    match word {
        "flexvol" => begin_run(bench, Program::Flexvol, rest),
        "reference" => begin_run(bench, Program::Reference, rest),
        "dump" => begin_run(bench, Program::Dump, rest),
        "aggregate" => aggregate(bench, rest),
        "drawn" => play_drawn(bench, rest),
        "image" => image(bench, rest),
        "keep" => keep(bench),
        "kept" => take_kept(bench),
        "after" => add_line(&mut bench.lines, rest),
        "lay" => lay(bench.alloc, &mut bench.host, rest),
        "zero" => zero(&mut bench.host, rest),
        "copy" => copy(&mut bench.host, rest),
        "set" => set(&mut bench.host, rest),
        "block" => is_word(&mut bench.host, rest),
        "delayed" => are_delayed(&mut bench.host, rest),
        "free" => are_free(&mut bench.host, rest),
        "damage" => is_damaged(bench.alloc, &mut settled(&bench.host)?, rest),
        _ => Err(unread()),
    }
}
