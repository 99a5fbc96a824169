//! How a run of the program ends.

ghost use Rattle.std.specs.Prelude.{◌≡◌};
ghost use Rattle.fv_run.specs.Endings.{of_check, of_opening, of_session, status_of};

use fv_aggregate as sessions;
use fv_aggregate::OpenFault;
use fv_first_pass::CheckFault;

/// Why a run of the program ended before all was done.
#[derive(Clone, Copy, Debug, PartialEq, Eq)]
pub(crate) enum Fault {
    /// The words have no meaning.
    Usage,
    /// A check found faults, and told of them.
    Unsound,
    /// Block 0 is no superblock, or neither gate is open.
    NotAggregate,
    /// The source failed.
    Source,
    /// The sink failed.
    Sink,
    /// The disk failed.
    Disk,
    /// Memory ran out.
    Memory,
    /// A block isn't as it has to be, a label is of a form that can't be loaded yet, or fewer blocks or numbers are free than a
    /// consistency point asks for.
    Damaged,
    /// The script has a byte past its limit.
    Limit,
}

impl Fault {
    /// The status that tells of it.
    pub(crate) fn status(self) -> u8
        ensures { result ≡ status_of self }
    {
        match self {
            Fault::Unsound => 1,
            Fault::NotAggregate => 2,
            Fault::Source => 3,
            Fault::Sink => 4,
            Fault::Disk => 5,
            Fault::Memory => 6,
            Fault::Usage => 7,
            Fault::Damaged => 8,
            Fault::Limit => 9,
        }
    }
}

impl From<OpenFault> for Fault {
    ghost from_gives = { λ fault e. e ≡ of_opening fault };

    fn from(fault: OpenFault) -> Fault {
        match fault {
            OpenFault::DiskFault => Fault::Disk,
            OpenFault::Damaged { .. } => Fault::Damaged,
            OpenFault::Memory => Fault::Memory,
            OpenFault::NotAggregate => Fault::NotAggregate,
        }
    }
}

/// A run ends with the first fault, so that its session never tells of an earlier one.
impl From<sessions::Fault> for Fault {
    ghost from_gives = { λ fault e. e ≡ of_session fault };

    fn from(fault: sessions::Fault) -> Fault {
        match fault {
            sessions::Fault::DiskFault | sessions::Fault::Failed { .. } => Fault::Disk,
            sessions::Fault::Damaged { .. } => Fault::Damaged,
            sessions::Fault::Memory => Fault::Memory,
        }
    }
}

impl From<CheckFault> for Fault {
    ghost from_gives = { λ fault e. e ≡ of_check fault };

    fn from(fault: CheckFault) -> Fault {
        match fault {
            CheckFault::DiskFault => Fault::Disk,
            CheckFault::NotAggregate => Fault::NotAggregate,
            CheckFault::Memory => Fault::Memory,
        }
    }
}
