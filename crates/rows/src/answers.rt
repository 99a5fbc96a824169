//! What a disk answers, and what the plain machine does.

use crate::bench::{Program, Run};
use crate::lines::{lines_in, split_lines};
use fv_dump::dump;
use fv_memdisk::{MemHost, Tear};
use fv_reference_run::reference;
use fv_run::{flexvol, run_script};
use std::alloc::{AllocError, Global};

/// What a disk answers that has no aggregate.
pub const SHUT: &[u8] = &[2];

/// The disk that a crash at a moment leaves; at the last one where there is none of that number.
pub fn image_at(host: &MemHost, moment: u64, tear: Tear) -> Result<MemHost, AllocError> {
    let last = host.moments().saturating_sub(1);
    if moment < last {
        host.image(moment, tear)
    } else {
        host.image(last, tear)
    }
}

/// How many blocks wait for a barrier at a moment; at the last one where there is none of that number.
pub fn waiting_at(host: &MemHost, moment: u64) -> Result<usize, AllocError> {
    let last = host.moments().saturating_sub(1);
    if moment < last {
        host.waiting(moment)
    } else {
        host.waiting(last)
    }
}

/// The disk of a host as it reads, under a host of its own.
pub fn settled(host: &MemHost) -> Result<MemHost, AllocError> {
    image_at(host, u64::MAX, Tear::New)
}

/// What was given out by a moment.
pub fn given_by(host: &MemHost, moment: u64) -> &[u8] {
    let given = host.given();
    if moment < host.moments() {
        given.get(..host.given_at(moment)).unwrap_or(b"")
    } else {
        given
    }
}

/// Runs the program, and answers its status.
pub fn start(alloc: Global, run: &Run, host: &mut MemHost) -> Result<u64, AllocError> {
    host.next_run(Vec::from_slice(alloc, run.script.as_slice())?);
    let status = match run.program {
        Program::Flexvol => flexvol(alloc, run.words.as_slice(), host),
        Program::Reference => reference(alloc, run.words.as_slice(), host),
        Program::Dump => dump(alloc, run.words.as_slice(), host),
        Program::Script(limit) => run_script(alloc, host, limit),
    };
    Ok(u64::from(status))
}

/// What a disk answers to a script that only asks: the replies, or a status other than 0.
pub fn look_at(alloc: Global, image: &mut MemHost, script: &[u8]) -> Result<Vec<u8>, AllocError> {
    image.next_run(Vec::from_slice(alloc, script)?);
    let status = run_script(alloc, image, u64::MAX);
    if status == 0 {
        Vec::from_slice(alloc, replies_in(image.given(), 0))
    } else {
        Vec::from_slice(alloc, &[status])
    }
}

/// What the plain machine of so many blocks replies to a script after these lines.
pub fn plain_replies(
    alloc: Global,
    blocks: u64,
    lines: &[u8],
    script: &[u8],
) -> Result<Vec<u8>, AllocError> {
    let mut source = Vec::from_slice(alloc, lines)?;
    source.extend_from_slice(script)?;
    let mut words = Vec::new(alloc);
    words.push(format!(in alloc; "{blocks}")?)?;
    let mut host = MemHost::new(alloc, source);
    let _ = reference(alloc, words.as_slice(), &mut host);
    Vec::from_slice(alloc, replies_in(host.given(), lines_in(lines)))
}

/// The reply lines behind the first so many, without the last line, which has their number.
fn replies_in(given: &[u8], lines: u64) -> &[u8] {
    let (_, rest) = split_lines(given, lines);
    let (replies, _) = split_lines(rest, lines_in(rest).saturating_sub(1));
    replies
}

/// Adds lines to those that lead to a plain machine; the last one gets an end.
pub fn add_lines(lines: &mut Vec<u8>, more: &[u8]) -> Result<(), AllocError> {
    lines.extend_from_slice(more)?;
    match more.last() {
        None | Some(b'\n') => Ok(()),
        Some(_) => lines.extend_from_slice(b"\n"),
    }
}
