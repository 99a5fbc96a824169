//! The host over a real file and the standard streams: the trusted edge.
//!
//! What a file holds is outside every proof, so this host tells only its counts. That the file's
//! `sync_all` is a barrier of the disk model is the link between the theorems and a machine.
#![tactic(auto)]

mod blocks;
mod calls;
mod streams;

use crate::blocks::Access;
use fv_disk::Disk;
use std::os::unix::fs::FileExt;
use std::rt::Runtime;

/// A disk over the blocks of a file, with standard input as the source and standard output as the
/// sink.
///
/// The first disk call opens the file for reading and writing, or for reading alone, where each write fails. A missing file is made where that call
/// is a `write`, and is a fault otherwise. A block is read or written by calls that name its offset; a
/// read past the end gives zero bytes, and a barrier is the file's `sync_all`. Each call that fails raises
/// the count of its kind by one, up to 2^64 - 1; a call that a signal interrupted is made again.
#[derive(Drop)]
pub struct FileHost<R: Runtime> {
    rt: R,
    path: String,
    file: Option<R::File>,
    access: Access,
    faults: u64,
    write_faults: u64,
    source_faults: u64,
    sink_faults: u64,
}

impl<R: Runtime> FileHost<R>
where
    R::File: FileExt,
{
    ghost use Rattle.std.specs.Prelude.{◌≡◌, false};
    ghost use Rattle.fv_filehost.specs.Unknown.{no_ends};

    /// The host over the file at `path`. It opens nothing and takes no memory.
    pub fn new(rt: R, path: String) -> FileHost<R>
        ensures told { (⟦<FileHost<R> as Disk>⟧.shown result).tells ≡ false }
        ensures faults { (⟦<FileHost<R> as Disk>⟧.shown result).faults ≡ 0 }
        ensures write_faults { (⟦<FileHost<R> as Disk>⟧.shown result).write_faults ≡ 0 }
        ensures ends { (⟦<FileHost<R> as Disk>⟧.shown result).ends ≡ no_ends 0 0 }
    {
        FileHost::over(rt, path, Access::Change)
    }

    /// The host over the file at `path`, which it opens for reading alone: so it looks at a file that nobody may write, too, and each
    /// write fails. It opens nothing yet, and takes no memory.
    pub fn to_look(rt: R, path: String) -> FileHost<R>
        ensures told { (⟦<FileHost<R> as Disk>⟧.shown result).tells ≡ false }
        ensures faults { (⟦<FileHost<R> as Disk>⟧.shown result).faults ≡ 0 }
        ensures write_faults { (⟦<FileHost<R> as Disk>⟧.shown result).write_faults ≡ 0 }
        ensures ends { (⟦<FileHost<R> as Disk>⟧.shown result).ends ≡ no_ends 0 0 }
    {
        FileHost::over(rt, path, Access::Look)
    }

    fn over(rt: R, path: String, access: Access) -> FileHost<R>
        ensures told { (⟦<FileHost<R> as Disk>⟧.shown result).tells ≡ false }
        ensures faults { (⟦<FileHost<R> as Disk>⟧.shown result).faults ≡ 0 }
        ensures write_faults { (⟦<FileHost<R> as Disk>⟧.shown result).write_faults ≡ 0 }
        ensures ends { (⟦<FileHost<R> as Disk>⟧.shown result).ends ≡ no_ends 0 0 }
    {
        FileHost {
            rt,
            path,
            file: None,
            access,
            faults: 0,
            write_faults: 0,
            source_faults: 0,
            sink_faults: 0,
        }
    }
}
