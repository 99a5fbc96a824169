//! What goes wrong in a row.

use fv_disk::{BlockFault, Failed};
use fv_volume::VolumeFault;
use std::alloc::AllocError;

/// What went wrong.
#[derive(Debug, PartialEq, Eq, Drop)]
pub enum Wrong {
    /// A call failed.
    Fault(VolumeFault),
    /// No aggregate was found.
    NoRoot,
    /// The reply to the command with this number, counted from 0, isn't the wanted one.
    Differs(usize),
    /// A row has no form.
    Row,
}

impl From<VolumeFault> for Wrong {
    fn from(fault: VolumeFault) -> Wrong {
        Wrong::Fault(fault)
    }
}

impl From<BlockFault> for Wrong {
    fn from(fault: BlockFault) -> Wrong {
        match fault {
            BlockFault::DiskFault => Wrong::Fault(VolumeFault::DiskFault),
            BlockFault::Damaged { at, want, found } => {
                Wrong::Fault(VolumeFault::Damaged { at, want, found })
            }
            BlockFault::Memory => Wrong::Fault(VolumeFault::Memory),
        }
    }
}

impl From<AllocError> for Wrong {
    fn from(_: AllocError) -> Wrong {
        Wrong::Fault(VolumeFault::Memory)
    }
}

impl From<Failed> for Wrong {
    fn from(_: Failed) -> Wrong {
        Wrong::Fault(VolumeFault::DiskFault)
    }
}
