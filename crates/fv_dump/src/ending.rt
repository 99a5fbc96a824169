//! How a dump ends.

ghost use Rattle.std.specs.Prelude.{◌≡◌, ◌∷◌, [], Contains};
ghost use Rattle.fv_dump.specs.declared.ending.Fault.TheVariants.{Memory};

use std::alloc::AllocError;

/// Why a dump ended before all was told.
#[derive(Clone, Copy, Debug, PartialEq, Eq)]
pub(crate) enum Fault {
    /// The words have no meaning.
    Usage,
    /// Block 0 is no superblock, or neither gate is open.
    NotAggregate,
    /// The sink failed.
    Sink,
    /// The disk failed.
    Disk,
    /// Memory ran out.
    Memory,
}

impl Fault {
    ghost use Rattle.fv_dump.specs.Looking.{status_of};

    /// The status that tells of it.
    pub(crate) fn status(self) -> u8
        ensures value { result ≡ status_of self }
        ensures one { Contains (0 ∷ 2 ∷ 4 ∷ 5 ∷ 6 ∷ 7 ∷ []) result }
    {
        match self {
            Fault::NotAggregate => 2,
            Fault::Sink => 4,
            Fault::Disk => 5,
            Fault::Memory => 6,
            Fault::Usage => 7,
        }
    }
}

impl From<AllocError> for Fault {
    ghost from_gives = { λ _ e. e ≡ Memory };

    fn from(_: AllocError) -> Fault {
        Fault::Memory
    }
}
