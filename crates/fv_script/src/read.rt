//! Reading a line.

ghost use Rattle.std.specs.Prelude.{◌≡◌};
ghost use Rattle.fv_model.specs.Words.{line_words};
ghost use Rattle.fv_model.specs.Grammar.{command};
ghost use Rattle.fv_model.specs.Lines.{line_of};
ghost use Rattle.fv_script.specs.Reading.{handed, outcome, reading};

use crate::LineFault;
use crate::files::{cut, get, len, ls, new, put, rm};
use crate::others::{clean, cp, mirror, probe, work};
use crate::snapshots::{clone, snap, split};
use crate::values::is;
use crate::volumes::vol;
use crate::words::{Words, word};
use fv_model::Command;

/// The most bytes that a line of a command has, without its end: a block takes 8192, and names and words the others.
pub const LONGEST: usize = 9000;

/// Reads a line, handed in without its end, and leaves the command that it says in the place lent. At `Err` what that place holds is open.
///
/// `LineFault::Syntax` comes exactly where the line has more than 9000 bytes or its words are none of
/// the language's forms, and `LineFault::Range` exactly where they are one of them, but its number is
/// outside the range that the form states. It takes no memory, looks a few times at each byte,
/// and moves no block: a command fills the place lent once, 4 KB, and a line that says none fills nothing.
#[tactic(auto, unfolding(fv_model::specs::Lines::line_of))]
pub fn read_into(line: &[u8], into: &mut Command) -> Result<(), LineFault>
    ensures { handed result into.new ≡ reading (line_of line.now) }
{
    if line.len() > LONGEST {
        return Err(LineFault::Syntax);
    }
    command(&mut Words { line }, into)
}

/// Reads a line as `read_into` does, with the same faults, and answers the command itself. It has room for a block, so that 4 KB more are
/// filled, and moved where the caller hands it on.
pub fn read_line(line: &[u8]) -> Result<Command, LineFault>
    ensures { result ≡ reading (line_of line.now) }
{
    let mut command = Command::Cp;
    read_into(line, &mut command)?;
    Ok(command)
}

/// The command that the words of a line say, in the place lent. Below it each form answers in a few bytes whether it was read.
#[tactic(auto, unfolding(fv_model::specs::Grammar::command))]
fn command(words: &mut Words<'_>, into: &mut Command) -> Result<(), LineFault>
    ensures { handed result into.new ≡ outcome (command (line_words words.old.line.now)) }
{
    let keyword = word(words)?;
    if is(keyword, b"vol") {
        return vol(words, into);
    }
    if is(keyword, b"snap") {
        return snap(words, into);
    }
    if is(keyword, b"clone") {
        return clone(words, into);
    }
    if is(keyword, b"split") {
        return split(words, into);
    }
    if is(keyword, b"new") {
        return new(words, into);
    }
    if is(keyword, b"put") {
        return put(words, into);
    }
    if is(keyword, b"get") {
        return get(words, into);
    }
    if is(keyword, b"len") {
        return len(words, into);
    }
    if is(keyword, b"cut") {
        return cut(words, into);
    }
    if is(keyword, b"rm") {
        return rm(words, into);
    }
    if is(keyword, b"ls") {
        return ls(words, into);
    }
    if is(keyword, b"mirror") {
        return mirror(words, into);
    }
    if is(keyword, b"clean") {
        return clean(words, into);
    }
    if is(keyword, b"probe") {
        return probe(words, into);
    }
    if is(keyword, b"work") {
        return work(words, into);
    }
    if is(keyword, b"cp") {
        return cp(words, into);
    }
    Err(LineFault::Syntax)
}
