//! A disk whose calls are counted.

ghost use Rattle.std.specs.Prelude.{◌≡◌};

use fv_disk::{Block, Disk, Failed};

/// A disk that tells how many calls there were.
pub(crate) trait Counted: Disk {
    /// How many reads, writes and barriers there were. It stays at 2^64 - 1.
    fn calls(&self) -> u64;
}

/// A disk with a count of its calls.
#[derive(Drop)]
pub(crate) struct Counting<D: Disk> {
    disk: D,
    calls: u64,
}

impl<D: Disk> Counting<D> {
    /// The disk, of whose calls none was counted yet.
    pub(crate) fn new(disk: D) -> Counting<D>
        ensures { result.disk ≡ disk }
    {
        Counting { disk, calls: 0 }
    }
}

impl<D: Disk> Disk for Counting<D> {
    ghost shown = { λ counting. D.shown counting.disk };

    fn read(&mut self, at: u64, into: &mut Block) -> Result<(), Failed> {
        self.calls = self.calls.saturating_add(1);
        self.disk.read(at, into)
    }

    fn write(&mut self, at: u64, block: &Block) -> Result<(), Failed> {
        self.calls = self.calls.saturating_add(1);
        self.disk.write(at, block)
    }

    fn barrier(&mut self) -> Result<(), Failed> {
        self.calls = self.calls.saturating_add(1);
        self.disk.barrier()
    }

    fn faults(&self) -> u64 {
        self.disk.faults()
    }

    fn write_faults(&self) -> u64 {
        self.disk.write_faults()
    }

    ghost laws = { λ counting. D.laws counting.disk };
}

impl<D: Disk> Counted for Counting<D> {
    fn calls(&self) -> u64 {
        self.calls
    }
}
