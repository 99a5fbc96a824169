//! The calls of the host, each counted.

ghost use Rattle.std.specs.Prelude.{◌≡◌};
ghost use Rattle.fv_disk.specs.Shown.{HasCause};

use crate::FileHost;
use crate::blocks::{read_block, sync, write_block};
use crate::streams::{read_some, write_some};
use fv_disk::{Block, Disk, Failed, Host};
use std::os::unix::fs::FileExt;
use std::rt::Runtime;

/// Raises the count where the call failed.
fn counted<T>(done: Result<T, Failed>, count: &mut u64) -> Result<T, Failed>
    ensures cause { HasCause count.old count.new result }
    ensures same { result ≡ done }
{
    if done.is_err() {
        *count = count.saturating_add(1);
    }
    done
}

impl<R: Runtime> Disk for FileHost<R>
where
    R::File: FileExt,
{
    ghost use Rattle.fv_filehost.specs.Unknown.{unknown, is_disk};

    ghost shown = { λ host. unknown host.faults host.write_faults host.source_faults host.sink_faults };

    ghost laws = { λ host. is_disk host.faults host.write_faults host.source_faults host.sink_faults };

    fn read(&mut self, at: u64, into: &mut Block) -> Result<(), Failed> {
        let done = read_block(
            &self.rt,
            self.path.as_str(),
            &mut self.file,
            self.access,
            at,
            into,
        );
        counted(done, &mut self.faults)
    }

    fn write(&mut self, at: u64, block: &Block) -> Result<(), Failed> {
        let done = write_block(
            &self.rt,
            self.path.as_str(),
            &mut self.file,
            self.access,
            at,
            block,
        );
        let done = counted(done, &mut self.faults);
        counted(done, &mut self.write_faults)
    }

    fn barrier(&mut self) -> Result<(), Failed> {
        let done = sync(&self.rt, self.path.as_str(), &mut self.file, self.access);
        let done = counted(done, &mut self.faults);
        counted(done, &mut self.write_faults)
    }

    fn faults(&self) -> u64 {
        self.faults
    }

    fn write_faults(&self) -> u64 {
        self.write_faults
    }
}

impl<R: Runtime> Host for FileHost<R>
where
    R::File: FileExt,
{
    fn take(&mut self, into: &mut [u8]) -> Result<usize, Failed> {
        let done = read_some(&self.rt, into);
        counted(done, &mut self.source_faults)
    }

    fn give(&mut self, bytes: &[u8]) -> Result<usize, Failed> {
        let done = write_some(&self.rt, bytes);
        counted(done, &mut self.sink_faults)
    }
}
