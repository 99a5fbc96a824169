//! Where a walk finds the blocks of a volume.

ghost use Rattle.std.specs.Prelude.{◌≡◌, ℕ, OnOk};
ghost use Rattle.fv_disk.specs.Shown.{HasCause};
ghost use Rattle.fv_faults.specs.Walks.{Ground};
ghost use Rattle.fv_walk.specs.Sources.{IsBlockAt, found_at};

use fv_disk::{Block, Failed};

/// Where a VVBN is found.
#[derive(Clone, Copy, Debug, PartialEq, Eq)]
pub struct Found {
    /// The place of its block: any number by which the source reads it.
    pub pvbn: u64,
    /// The kind of its entry, 1 to 8 (`docs/FORMAT.md`).
    pub kind: u8,
}

/// The blocks of one volume: where each VVBN is found, along the chain of bases, and the block at each place. An aggregate on a disk
/// is one, and so may be a stream of blocks.
pub trait Source {
    /// The volume in which a walk goes.
    ghost volume: { Self → Ground };

    /// Whether what the source says is so of that volume. A source over a disk that promises nothing of its content takes a
    /// statement that can't be shown.
    ghost fits: { Self → Type 0 };

    /// How many reads have failed.
    ghost faults: { Self → ℕ };

    /// What a read leaves of all that a source has.
    ghost reads: { Self → Self → Type 0 };

    /// Where a VVBN of the volume is found, and `None` for a hole along the chain. It reads nothing.
    fn find(&self, vvbn: u64) -> Option<Found>
        ensures { fits self.now → result ≡ found_at (volume self.now) vvbn };

    /// Reads the block at a place that was found. At `Err` the content of `into` is open. Costs one block.
    fn read(&mut self, at: u64, into: &mut Block) -> Result<(), Failed>
        ensures gives { fits self.old → OnOk result (IsBlockAt (volume self.old) at into.new) }
        ensures reads { reads self.old self.new }
        ensures cause { HasCause (faults self.old) (faults self.new) result };

    /// No read leaves all that there is, and two reads leave what one may.
    ghost reads_nothing: { (source : Self) → reads source source };

    ghost reads_on: { (old mid new : Self) → reads old mid → reads mid new → reads old new };

    /// A read leaves the volume, and whether what the source says is so of it.
    ghost same_volume: { (old new : Self) → reads old new → volume new ≡ volume old };

    ghost fits_on: { (old new : Self) → reads old new → fits old → fits new };
}
