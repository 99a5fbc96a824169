//! How a run of the program ends.

ghost use Rattle.std.specs.Prelude.{◌≡◌};

/// Why a run of the program ended before all was done.
#[derive(Clone, Copy, Debug, PartialEq, Eq)]
pub(crate) enum Fault {
    /// The words have no meaning.
    Usage,
    /// The source failed.
    Source,
    /// The sink failed.
    Sink,
    /// There is no memory for a command.
    Memory,
}

impl Fault {
    ghost use Rattle.fv_reference_run.specs.Endings.{status_of};

    /// The status that tells of it.
    pub(crate) fn status(self) -> u8
        ensures { result ≡ status_of self }
    {
        match self {
            Fault::Source => 3,
            Fault::Sink => 4,
            Fault::Memory => 6,
            Fault::Usage => 7,
        }
    }
}
