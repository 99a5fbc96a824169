//! Why blocks were not read, written or taken.

ghost use Rattle.std.specs.Prelude.{◌≡◌};
ghost use Rattle.fv_disk.specs.declared.fault.BlockFault.TheVariants.{DiskFault, Memory};

use crate::Failed;
use std::alloc::AllocError;
use thiserror::Error;

/// Why blocks were not read, written or taken. It is the one fault of every crate that works on blocks; those
/// that can also refuse, or find no aggregate, have an enum of their own beside it.
///
/// `specs/Faults.antt` has what the counts of the disk tell of each variant.
#[derive(Debug, Drop, Error, Clone, Copy, PartialEq, Eq)]
pub enum BlockFault {
    /// A read, a write or a barrier failed.
    #[error("DiskFault")]
    DiskFault,
    /// A block isn't as it has to be, or fewer blocks are free than are asked for.
    #[error("Damaged")]
    Damaged {
        /// The place of the block.
        at: u64,
        /// What had to stand in its first field that isn't as said, or how many blocks are asked for.
        want: u64,
        /// What stands there, or how many are free.
        found: u64,
    },
    /// Memory ran out.
    #[error("Memory")]
    Memory,
}

impl From<Failed> for BlockFault {
    ghost from_gives = { λ _ e. e ≡ DiskFault };

    fn from(_: Failed) -> BlockFault {
        BlockFault::DiskFault
    }
}

impl From<AllocError> for BlockFault {
    ghost from_gives = { λ _ e. e ≡ Memory };

    fn from(_: AllocError) -> BlockFault {
        BlockFault::Memory
    }
}
