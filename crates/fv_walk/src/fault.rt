//! Why a walk wasn't made.

ghost use Rattle.std.specs.Prelude.{◌≡◌};
ghost use Rattle.fv_walk.specs.declared.fault.WalkFault.TheVariants.{DiskFault, Memory};

use fv_disk::Failed;
use std::alloc::AllocError;

/// Why a walk wasn't made.
///
/// `specs/Causes.antt` has what the source's count of faults tells of each variant.
#[derive(Debug, Drop, Clone, Copy, PartialEq, Eq)]
pub enum WalkFault {
    /// A read failed.
    DiskFault,
    /// Memory ran out.
    Memory,
}

impl From<Failed> for WalkFault {
    ghost from_gives = { λ _ e. e ≡ DiskFault };

    fn from(_: Failed) -> WalkFault {
        WalkFault::DiskFault
    }
}

impl From<AllocError> for WalkFault {
    ghost from_gives = { λ _ e. e ≡ Memory };

    fn from(_: AllocError) -> WalkFault {
        WalkFault::Memory
    }
}
