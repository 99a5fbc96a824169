//! Why a call on volumes wasn't done.

use fv_disk::BlockFault;
use fv_model::Refusal;

/// Why a call on volumes wasn't done.
#[derive(Clone, Copy, Debug, PartialEq, Eq)]
pub enum VolumeFault {
    /// The machine refuses the command.
    Refused(Refusal),
    /// A read or a write failed.
    DiskFault,
    /// A block of metadata isn't as it has to be.
    Damaged {
        /// The place of the block.
        at: u64,
        /// What had to stand in its first field that isn't as said.
        want: u64,
        /// What stands there.
        found: u64,
    },
    /// Memory ran out.
    Memory,
}

impl From<BlockFault> for VolumeFault {
    ghost use Rattle.std.specs.Prelude.{◌≡◌};
    ghost use Rattle.fv_pool.specs.Causes.{of_block};

    ghost from_gives = { λ fault e. e ≡ of_block fault };

    fn from(fault: BlockFault) -> VolumeFault {
        match fault {
            BlockFault::DiskFault => VolumeFault::DiskFault,
            BlockFault::Damaged { at, want, found } => VolumeFault::Damaged { at, want, found },
            BlockFault::Memory => VolumeFault::Memory,
        }
    }
}
