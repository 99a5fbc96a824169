//! The images that a crash may leave while a point is made.

use crate::points::{Lines, make_point, step};
use fv_memdisk::{MemHost, Tear};
use fv_model::Command;
use fv_reference::Machine;
use fv_script::read_line;
use fv_volume_rows::{Opened, Pair, Wrong, apply, line_of, new_pair, open};
use std::alloc::Global;
use std::test::Fail;

/// What is asked of volumes to tell them apart.
const ASKED: Lines = &[
    b"vol stat a",
    b"vol stat b",
    b"ls a",
    b"ls b",
    b"len a f",
    b"get a f 0",
    b"get a f 1",
    b"get a f 130",
    b"get a g 0",
    b"get b f 0",
    b"get b f 2097151",
    b"snap list a",
    b"ls a@s",
    b"get a@s f 0",
    b"get a@s f 130",
    b"get a@t f 0",
    b"get a@t f 1",
];

/// Snapshots are made, changes follow, and each is removed or restored between points; a map slot is left and taken anew in one of them.
const SNAPS: Lines = &[
    b"vol create a 200 none",
    b"vol create b 100 none",
    b"new a f",
    b"put a f 0 01",
    b"put a f 130 02",
    b"cp",
    b"snap create a s",
    b"put a f 0 03",
    b"new b f",
    b"put b f 0 09",
    b"cp",
    b"snap create a t",
    b"put a f 1 04",
    b"cut a f 1",
    b"snap delete a s",
    b"cp",
    b"snap create a s",
    b"rm a f",
    b"cp",
    b"snap restore a t",
    b"cp",
    b"put a f 0 05",
    b"snap delete a t",
    b"snap create a t",
    b"cp",
    b"snap delete a s",
    b"snap delete a t",
    b"rm b f",
    b"cp",
];

/// Adds the line of what volumes answer to a command.
fn tell(opened: &mut Opened, command: &Command, lines: &mut Vec<u8>) -> Result<(), Wrong> {
    let reply = apply(opened, command)?;
    let line = line_of(opened.alloc, &reply)?;
    lines.extend_from_slice(line.as_slice())?;
    Ok(())
}

/// The same for a line.
fn tell_line(opened: &mut Opened, line: &[u8], lines: &mut Vec<u8>) -> Result<(), Wrong> {
    match read_line(line) {
        Ok(command) => tell(opened, &command, lines),
        Err(_) => Err(Wrong::Row),
    }
}

/// What volumes answer to what is asked, one line after the other.
fn told(opened: &mut Opened) -> Result<Vec<u8>, Wrong> {
    let mut lines = Vec::new(opened.alloc);
    for line in ASKED {
        tell_line(opened, line, &mut lines)?;
    }
    Ok(lines)
}

/// Adds the line of what a machine answers to a command.
fn add(
    alloc: Global,
    machine: &mut Machine,
    command: &Command,
    lines: &mut Vec<u8>,
) -> Result<(), Wrong> {
    let reply = machine.apply(alloc, command)?;
    let line = line_of(alloc, &reply)?;
    lines.extend_from_slice(line.as_slice())?;
    Ok(())
}

/// The same for a line.
fn add_line(
    alloc: Global,
    machine: &mut Machine,
    line: &[u8],
    lines: &mut Vec<u8>,
) -> Result<(), Wrong> {
    match read_line(line) {
        Ok(command) => add(alloc, machine, &command, lines),
        Err(_) => Err(Wrong::Row),
    }
}

/// What a machine answers to lines, one after the other.
fn add_lines(
    alloc: Global,
    machine: &mut Machine,
    asked: &[&[u8]],
    lines: &mut Vec<u8>,
) -> Result<(), Wrong> {
    for line in asked {
        add_line(alloc, machine, line, lines)?;
    }
    Ok(())
}

/// What the plain machine of 1,024 blocks answers to what is asked, after the first so many lines; a `cp` is no command that it sees.
fn plain(alloc: Global, lines: Lines, count: usize) -> Result<Vec<u8>, Wrong> {
    let mut machine = Machine::new(alloc, 1024);
    let mut before = Vec::new(alloc);
    add_lines(
        alloc,
        &mut machine,
        &lines[..count.min(lines.len())],
        &mut before,
    )?;
    let mut answers = Vec::new(alloc);
    add_lines(alloc, &mut machine, ASKED, &mut answers)?;
    Ok(answers)
}

/// What an image answers, and that it answers the same after a point of its own.
fn image_told(alloc: Global, image: MemHost) -> Result<Vec<u8>, Wrong> {
    let mut opened = open(alloc, image)?;
    let first = told(&mut opened)?;
    match make_point(opened) {
        Ok(after) => told_as(after, first),
        Err(lost) => Err(Wrong::Fault(lost.fault)),
    }
}

/// These answers, where volumes give them.
fn told_as(mut opened: Opened, first: Vec<u8>) -> Result<Vec<u8>, Wrong> {
    let again = told(&mut opened)?;
    if first.as_slice() == again.as_slice() {
        Ok(first)
    } else {
        Err(Wrong::Row)
    }
}

/// What the tear of a number does to the blocks that wait for a barrier.
fn tear_of(number: u32) -> Tear {
    match number {
        0 => Tear::Old,
        1 => Tear::New,
        2 => Tear::Fill(255),
        3 => Tear::Fill(0),
        _ => Tear::First(number.saturating_sub(3)),
    }
}

/// Two answers that an image may give, and how often each was seen.
#[derive(Drop)]
pub(crate) struct Either {
    before: Vec<u8>,
    after: Vec<u8>,
    seen: [u32; 2],
}

/// What the plain machine answers after so many lines, and after so many more.
pub(crate) fn either_of(
    alloc: Global,
    lines: Lines,
    last: usize,
    number: usize,
) -> Result<Either, Wrong> {
    Ok(Either {
        before: plain(alloc, lines, last)?,
        after: plain(alloc, lines, number)?,
        seen: [0; 2],
    })
}

/// Counts an answer; false where it is neither.
fn count(either: &mut Either, answer: &[u8]) -> bool {
    if answer == either.before.as_slice() {
        either.seen[0] = either.seen[0].saturating_add(1);
        return true;
    }
    if answer == either.after.as_slice() {
        either.seen[1] = either.seen[1].saturating_add(1);
        return true;
    }
    false
}

/// Looks at the tear of a number at a moment below `moments()`.
fn look_at(
    alloc: Global,
    host: &MemHost,
    moment: u64,
    number: u32,
    either: &mut Either,
) -> Result<(), Wrong> {
    if moment >= host.moments() {
        return Err(Wrong::Row);
    }
    let answer = image_told(alloc, host.image(moment, tear_of(number))?)?;
    if count(either, answer.as_slice()) {
        Ok(())
    } else {
        Err(Wrong::Differs(number as usize))
    }
}

/// Looks at the tears of a moment at which at most so many blocks wait for a barrier.
pub(crate) fn look(
    alloc: Global,
    host: &MemHost,
    moment: u64,
    waiting: u64,
    either: &mut Either,
) -> Result<(), Wrong> {
    for number in 0..40 {
        if number > 3 && u64::from(number) > waiting.saturating_add(3) {
            return Ok(());
        }
        look_at(alloc, host, moment, number, either)?;
    }
    Ok(())
}

/// Points of two volumes: files come, are overwritten, cut and removed.
const SCRIPT: Lines = &[
    b"vol create a 100 volume",
    b"vol create b 300 none",
    b"new a f",
    b"put a f 0 01",
    b"put a f 130 02",
    b"new b f",
    b"put b f 2097151 09",
    b"cp",
    b"put a f 0 03",
    b"put a f 1 04",
    b"new a g",
    b"put a g 0 05",
    b"put b f 0 06",
    b"cp",
    b"cut a f 1",
    b"rm b f",
    b"put a g 0 07",
    b"cp",
    b"rm a f",
    b"rm a g",
    b"cp",
];

/// Whether each image from a moment on stands for one of the two machines, and both are seen.
fn see_point(host: &MemHost, alloc: Global, first: u64, either: &mut Either) -> Result<(), Wrong> {
    for moment in first..host.moments() {
        look(alloc, host, moment, moment.saturating_sub(first), either)?;
    }
    if either.seen[0] == 0 || either.seen[1] == 0 {
        return Err(Wrong::Row);
    }
    Ok(())
}

/// Applies the line of a number. Where it is a point, each image of it stands for the machine of the point before, after `last` lines, or for
/// that of this one.
fn see_step(pair: Pair, lines: Lines, last: usize, number: usize) -> Result<Pair, Wrong> {
    if number >= lines.len() {
        return Err(Wrong::Row);
    }
    let line = lines[number];
    let alloc = pair.opened.alloc;
    let first = pair.opened.disk.moments().saturating_sub(1);
    let pair = step(pair, line)?;
    if line == b"cp".as_slice() {
        let mut either = either_of(alloc, lines, last, number)?;
        see_point(&pair.opened.disk, alloc, first, &mut either)?;
    }
    Ok(pair)
}

/// Applies lines in a new aggregate, and sees each of their points.
fn see(alloc: Global, lines: Lines) -> Result<(), Wrong> {
    let mut pair = new_pair(alloc, 1024)?;
    let mut last = 0;
    for number in 0..lines.len() {
        pair = see_step(pair, lines, last, number)?;
        if lines[number] == b"cp".as_slice() {
            last = number;
        }
    }
    Ok(())
}

#[test]
fn each_image_of_a_point(rt: HostRuntime) -> Result<(), Fail> {
    assert_eq!(rt; see(rt.alloc(), SCRIPT), Ok(()));
    Ok(())
}

#[test]
fn each_image_of_a_point_with_snapshots(rt: HostRuntime) -> Result<(), Fail> {
    assert_eq!(rt; see(rt.alloc(), SNAPS), Ok(()));
    Ok(())
}
