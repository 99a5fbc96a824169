//! Volumes over a host in memory, and the plain machine beside them.

use crate::calls::apply;
use crate::opened::{Opened, empty};
use crate::wrong::Wrong;
use fv_memdisk::MemHost;
use fv_model::{Command, Name, Refusal, Reply};
use fv_reference::Machine;
use fv_script::{LineFault, read_line, write_reply};
use std::alloc::Global;

/// Volumes, and the plain machine that they stand for.
#[derive(Drop)]
pub struct Pair {
    pub opened: Opened,
    pub machine: Machine,
    /// How often the machine answered each refusal, by its number, and anything else under 0.
    pub seen: [u32; 17],
}

/// A new aggregate of so many blocks, from 512 to 1,048,576, and its machine.
pub fn new_pair(alloc: Global, blocks: u32) -> Result<Pair, Wrong> {
    Ok(Pair {
        opened: empty(alloc, blocks)?,
        machine: Machine::new(alloc, blocks),
        seen: [0; 17],
    })
}

/// The line of a reply, with its end.
pub fn line_of(alloc: Global, reply: &Reply) -> Result<Vec<u8>, Wrong> {
    let mut sink = MemHost::new(alloc, Vec::new(alloc));
    write_reply(reply, &mut sink)?;
    Ok(Vec::from_slice(alloc, sink.given())?)
}

/// The replies to a command, of the volumes and of the machine.
fn replies(pair: &mut Pair, command: &Command) -> Result<(Reply, Reply), Wrong> {
    let alloc = pair.opened.alloc;
    let reply = apply(&mut pair.opened, command)?;
    let wanted = pair.machine.apply(alloc, command)?;
    count(&mut pair.seen, &wanted);
    Ok((reply, wanted))
}

/// Counts a reply.
fn count(seen: &mut [u32; 17], reply: &Reply) {
    let place = match reply {
        Reply::Refused(refusal) => usize::from(refusal.number()),
        _ => 0,
    };
    if place < 17 {
        seen[place] = seen[place].saturating_add(1);
    }
}

/// Whether two replies have one line.
fn have_one_line(alloc: Global, first: &Reply, second: &Reply) -> Result<bool, Wrong> {
    let first = line_of(alloc, first)?;
    let second = line_of(alloc, second)?;
    Ok(first.as_slice() == second.as_slice())
}

/// Whether two replies are equal.
fn are_equal(alloc: Global, first: &Reply, second: &Reply) -> Result<bool, Wrong> {
    match (first, second) {
        (Reply::Done, Reply::Done) => Ok(true),
        (Reply::Content(left), Reply::Content(right)) => Ok(left == right),
        _ => have_one_line(alloc, first, second),
    }
}

/// Whether the volumes answer a command as the machine does.
pub fn agrees(pair: &mut Pair, command: &Command) -> Result<bool, Wrong> {
    let alloc = pair.opened.alloc;
    let (reply, wanted) = replies(pair, command)?;
    are_equal(alloc, &reply, &wanted)
}

/// What a line that says no command is refused for.
fn refused(fault: LineFault) -> Reply {
    match fault {
        LineFault::Syntax => Reply::Refused(Refusal::Syntax),
        LineFault::Range => Reply::Refused(Refusal::Range),
    }
}

/// Whether a reply has this line, told without its end.
fn is_told(alloc: Global, reply: &Reply, wanted: &[u8]) -> Result<bool, Wrong> {
    let line = line_of(alloc, reply)?;
    Ok(is_line(line.as_slice(), wanted))
}

/// Whether a command is answered by the volumes and by the machine with this reply.
fn answers_command(pair: &mut Pair, command: &Command, wanted: &[u8]) -> Result<bool, Wrong> {
    let alloc = pair.opened.alloc;
    let (first, second) = replies(pair, command)?;
    Ok(is_told(alloc, &first, wanted)? && is_told(alloc, &second, wanted)?)
}

/// Whether a line is answered by the volumes and by the machine with this reply, told without its end.
pub fn answers(pair: &mut Pair, line: &[u8], wanted: &[u8]) -> Result<bool, Wrong> {
    match read_line(line) {
        Ok(command) => answers_command(pair, &command, wanted),
        Err(fault) => is_told(pair.opened.alloc, &refused(fault), wanted),
    }
}

/// The name that a word spells.
pub fn name(word: &[u8]) -> Result<Name, Wrong> {
    match Name::read(word) {
        Some(name) => Ok(name),
        None => Err(Wrong::Row),
    }
}

/// Whether a line is these bytes and a line end.
fn is_line(line: &[u8], bytes: &[u8]) -> bool {
    match line.split_last() {
        Some((last, rest)) => *last == b'\n' && rest == bytes,
        None => false,
    }
}

/// A line of a script, and its reply.
pub type Row = (&'static [u8], &'static [u8]);

/// Whether rows are answered as they say, one after the other.
pub fn walk(pair: &mut Pair, rows: &[Row]) -> Result<(), Wrong> {
    for (number, (line, wanted)) in rows.iter().enumerate() {
        if !answers(pair, line, wanted)? {
            return Err(Wrong::Differs(number));
        }
    }
    Ok(())
}

/// Whether rows are answered as they say in a new aggregate of 1024 blocks.
pub fn tells(alloc: Global, rows: &[Row]) -> Result<(), Wrong> {
    let mut pair = new_pair(alloc, 1024)?;
    walk(&mut pair, rows)
}

/// Whether the volumes answer a line as the machine does.
pub fn agrees_on(pair: &mut Pair, line: &[u8]) -> Result<bool, Wrong> {
    match read_line(line) {
        Ok(command) => agrees(pair, &command),
        Err(_) => Err(Wrong::Row),
    }
}

/// Whether the volumes answer lines as the machine does, one after the other.
pub fn agree_on(pair: &mut Pair, lines: &[&[u8]]) -> Result<(), Wrong> {
    for (number, line) in lines.iter().enumerate() {
        if !agrees_on(pair, line)? {
            return Err(Wrong::Differs(number));
        }
    }
    Ok(())
}
