//! The disk: an unbounded array of blocks, with what a crash may leave of it.

ghost use Rattle.std.specs.Prelude.{◌≡◌};
ghost use Rattle.fv_disk.specs.Shown.{Shown, IsDisk};
ghost use Rattle.fv_disk.specs.DiskCalls.{Reads, Writes, Settles};

use crate::{Block, Failed};

/// An unbounded array of blocks, zero where never written.
///
/// Between two barriers that succeed each written block may hold any bytes after a crash, and blocks
/// that were not written stay. After a barrier that succeeds a crash leaves what reads give, until
/// the next write. A write that failed counts as written, and a barrier that failed is none.
pub trait Disk {
    /// What the disk gives, what a crash may leave of it, now and since a time, and its counts of
    /// faults.
    ghost shown: { Self → Shown };

    /// Reads block number `at`. At `Err` the content of `into` is open. Costs one block.
    fn read(&mut self, at: u64, into: &mut Block) -> Result<(), Failed>
        ensures { Reads (shown self.old) at (shown self.new) into.new result };

    /// Writes block number `at`. Until a barrier succeeds, also after an `Err`, a crash may leave any
    /// bytes there. Costs one block.
    fn write(&mut self, at: u64, block: &Block) -> Result<(), Failed>
        ensures { Writes (shown self.old) at block.now (shown self.new) result };

    /// At `Ok` a crash leaves what reads give.
    fn barrier(&mut self) -> Result<(), Failed>
        ensures { Settles (shown self.old) (shown self.new) result };

    /// How many reads, writes and barriers have failed. It stays at 2^64 - 1.
    fn faults(&self) -> u64
        ensures { result ≡ (shown self.now).faults };

    /// How many writes and barriers have failed. It stays at 2^64 - 1.
    fn write_faults(&self) -> u64
        ensures { result ≡ (shown self.now).write_faults };

    /// What holds of every disk at every moment.
    ghost laws: { (disk : Self) → IsDisk (shown disk) };
}
