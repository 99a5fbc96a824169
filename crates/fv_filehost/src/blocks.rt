//! Blocks of a file.

use fv_disk::{Block, Failed, ZERO};
use std::fs::{OpenFile, OpenOptions};
use std::io::ErrorKind;
use std::os::unix::fs::FileExt;
use std::rt::Files;

const BLOCK_BYTES: u64 = 4096;

/// For what a file is opened.
#[derive(Clone, Copy, Debug, PartialEq, Eq)]
pub(crate) enum Access {
    /// For reading and writing.
    Change,
    /// For reading alone: each write fails.
    Look,
}

fn open<R: Files>(rt: &R, path: &str, access: Access, create: bool) -> Result<R::File, Failed> {
    OpenOptions::new()
        .read(true)
        .write(access == Access::Change)
        .create(create)
        .open(rt, path)
        .map_err(|_| Failed)
}

fn take_or_open<R: Files>(
    rt: &R,
    path: &str,
    file: &mut Option<R::File>,
    access: Access,
    create: bool,
) -> Result<R::File, Failed> {
    match file.take() {
        Some(open) => Ok(open),
        None => open(rt, path, access, create),
    }
}

/// Where a block begins in the file.
fn offset_of(at: u64) -> Result<u64, Failed> {
    at.checked_mul(BLOCK_BYTES).ok_or(Failed)
}

/// Fills the block with the file's bytes from an offset on, and with zeros past the end of the file.
fn fill<F: FileExt>(file: &F, offset: u64, into: &mut Block) -> Result<(), Failed> {
    *into = ZERO;
    let mut filled = 0;
    for _ in 0..u64::MAX {
        if filled == into.len() {
            return Ok(());
        }
        match file.read_at(&mut into[filled..], offset.saturating_add(filled as u64)) {
            Ok(0) => return Ok(()),
            Ok(count) => filled += count,
            Err(e) if e.kind() == ErrorKind::Interrupted => {}
            Err(_) => return Err(Failed),
        }
    }
    Err(Failed)
}

/// Writes the block to the file from an offset on.
fn put<F: FileExt>(file: &F, offset: u64, block: &Block) -> Result<(), Failed> {
    let mut written = 0;
    for _ in 0..u64::MAX {
        if written == block.len() {
            return Ok(());
        }
        match file.write_at(&block[written..], offset.saturating_add(written as u64)) {
            Ok(0) => return Err(Failed),
            Ok(count) => written += count,
            Err(e) if e.kind() == ErrorKind::Interrupted => {}
            Err(_) => return Err(Failed),
        }
    }
    Err(Failed)
}

pub(crate) fn read_block<R: Files>(
    rt: &R,
    path: &str,
    file: &mut Option<R::File>,
    access: Access,
    at: u64,
    into: &mut Block,
) -> Result<(), Failed>
where
    R::File: FileExt,
{
    let open = take_or_open(rt, path, file, access, false)?;
    let done = offset_of(at).and_then(|offset| fill(&open, offset, into));
    *file = Some(open);
    done
}

pub(crate) fn write_block<R: Files>(
    rt: &R,
    path: &str,
    file: &mut Option<R::File>,
    access: Access,
    at: u64,
    block: &Block,
) -> Result<(), Failed>
where
    R::File: FileExt,
{
    let open = take_or_open(rt, path, file, access, true)?;
    let done = offset_of(at).and_then(|offset| put(&open, offset, block));
    *file = Some(open);
    done
}

pub(crate) fn sync<R: Files>(
    rt: &R,
    path: &str,
    file: &mut Option<R::File>,
    access: Access,
) -> Result<(), Failed> {
    let open = take_or_open(rt, path, file, access, false)?;
    let done = open.sync_all().map_err(|_| Failed);
    *file = Some(open);
    done
}
