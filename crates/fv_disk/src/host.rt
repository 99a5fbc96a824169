//! The host: a disk with a source and a sink of bytes.

ghost use Rattle.std.specs.Prelude.{◌<◌, length};
ghost use Rattle.fv_disk.specs.HostCalls.{Takes, Gives};

use crate::{Disk, Failed};

/// A disk, a source of bytes and a sink of bytes, which share one clock. No call of the disk changes
/// what the source has left or the counts of the two.
pub trait Host: Disk {
    /// Takes bytes of the source into the front of `into`, and answers how many, at most its length.
    /// 0 is the end of the input. At `Err` no byte was taken, and the content of `into` is open.
    fn take(&mut self, into: &mut [u8]) -> Result<usize, Failed>
        requires { 0 < length into.old }
        ensures { Takes (Self.shown self.old) into.new (Self.shown self.new) result };

    /// Gives out a prefix of `bytes` that isn't empty, and answers its length. At `Err` nothing was
    /// given.
    fn give(&mut self, bytes: &[u8]) -> Result<usize, Failed>
        requires { 0 < length bytes.now }
        ensures { Gives (Self.shown self.old) bytes.now (Self.shown self.new) result };
}
