//! Why a session isn't opened, and why a call of one isn't done.

ghost use Rattle.std.specs.Prelude.{◌≡◌};
ghost use Rattle.fv_aggregate.specs.declared.fault.OpenFault.TheVariants.{DiskFault, Memory as Starved};
ghost use Rattle.fv_aggregate.specs.declared.fault.Fault.TheVariants.{Memory};
ghost use Rattle.fv_aggregate.specs.Causes.{of_block, of_root};

use fv_disk::{BlockFault, Failed};
use fv_root::RootFault;
use std::alloc::AllocError;
use thiserror::Error;

/// Why a session isn't opened.
#[derive(Debug, Drop, Error, Clone, Copy, PartialEq, Eq)]
pub enum OpenFault {
    /// A read or the barrier failed.
    #[error("DiskFault")]
    DiskFault,
    /// Block 0 is no superblock, or neither gate is open.
    #[error("NotAggregate")]
    NotAggregate,
    /// A block isn't as it has to be, or a label is of a form that can't be loaded yet.
    #[error("Damaged")]
    Damaged {
        /// The place of the block.
        at: u64,
        /// What had to stand in its first field that isn't as said.
        want: u64,
        /// What stands there.
        found: u64,
    },
    /// Memory ran out.
    #[error("Memory")]
    Memory,
}

impl From<Failed> for OpenFault {
    ghost from_gives = { λ _ e. e ≡ DiskFault };

    fn from(_: Failed) -> OpenFault {
        OpenFault::DiskFault
    }
}

impl From<RootFault> for OpenFault {
    ghost from_gives = { λ fault e. e ≡ of_root fault };

    fn from(fault: RootFault) -> OpenFault {
        match fault {
            RootFault::DiskFault => OpenFault::DiskFault,
            RootFault::NotAggregate => OpenFault::NotAggregate,
            RootFault::Damaged { at, want, found } => OpenFault::Damaged { at, want, found },
        }
    }
}

impl From<BlockFault> for OpenFault {
    ghost from_gives = { λ fault e. e ≡ of_block fault };

    fn from(fault: BlockFault) -> OpenFault {
        match fault {
            BlockFault::DiskFault => OpenFault::DiskFault,
            BlockFault::Damaged { at, want, found } => OpenFault::Damaged { at, want, found },
            BlockFault::Memory => OpenFault::Memory,
        }
    }
}

impl From<AllocError> for OpenFault {
    ghost from_gives = { λ _ e. e ≡ Starved };

    fn from(_: AllocError) -> OpenFault {
        OpenFault::Memory
    }
}

/// Why a call of a session isn't done.
#[derive(Debug, Drop, Error, Clone, Copy, PartialEq, Eq)]
pub enum Fault {
    /// A read, a write or a barrier failed in this call.
    #[error("DiskFault")]
    DiskFault,
    /// Fewer blocks are free than a consistency point asks for; or no number or block is free for a file that it places; or a block of a
    /// volume's files, or a leaf of its container, isn't as it has to be. Over an image that stands for a machine it never comes.
    #[error("Damaged")]
    Damaged {
        /// The place of the root that counts, where blocks are lacking; that of the root or of the volume's label, where no number or block
        /// is free for a file; that of the label, where a pointer leads nowhere; and else that of the block.
        at: u64,
        /// How many blocks are asked for; else 1, or what had to stand in the block's first field that isn't as said.
        want: u64,
        /// How many are free; else 0, or what stands there.
        found: u64,
    },
    /// Memory ran out.
    #[error("Memory")]
    Memory,
    /// A write or a barrier failed in an earlier call.
    #[error("Failed")]
    Failed {
        /// The disk's count of faults after that call.
        faults: u64,
    },
}

impl From<AllocError> for Fault {
    ghost from_gives = { λ _ e. e ≡ Memory };

    fn from(_: AllocError) -> Fault {
        Fault::Memory
    }
}
