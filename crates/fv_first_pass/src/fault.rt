//! Why a disk isn't checked.

ghost use Rattle.std.specs.Prelude.{◌≡◌};
ghost use Rattle.fv_first_pass.specs.declared.fault.CheckFault.TheVariants.{DiskFault, Memory};

use fv_disk::Failed;
use std::alloc::AllocError;
use thiserror::Error;

/// Why a disk isn't checked.
#[derive(Debug, Drop, Error, Clone, Copy, PartialEq, Eq)]
pub enum CheckFault {
    /// A read failed.
    #[error("DiskFault")]
    DiskFault,
    /// Block 0 is no superblock, or neither gate is open.
    #[error("NotAggregate")]
    NotAggregate,
    /// Memory ran out.
    #[error("Memory")]
    Memory,
}

impl From<Failed> for CheckFault {
    ghost from_gives = { λ _ e. e ≡ DiskFault };

    fn from(_: Failed) -> CheckFault {
        CheckFault::DiskFault
    }
}

impl From<AllocError> for CheckFault {
    ghost from_gives = { λ _ e. e ≡ Memory };

    fn from(_: AllocError) -> CheckFault {
        CheckFault::Memory
    }
}
