//! The damages that a source of blocks has answered.

ghost use Rattle.std.specs.Prelude.{◌≡◌};
ghost use Rattle.fv_pool.specs.Lending.{Notes};

use fv_disk::BlockFault;

/// How often damage was answered, and the last of it.
#[derive(Clone, Copy, Debug, PartialEq, Eq)]
pub struct Noted {
    /// How often; it stays at 2^64 - 1.
    pub count: u64,
    /// The place of the last one.
    pub at: u64,
    /// What was wanted there.
    pub want: u64,
    /// What was found there.
    pub found: u64,
}

impl Noted {
    /// No damage was answered.
    pub const NONE: Noted = Noted {
        count: 0,
        at: 0,
        want: 0,
        found: 0,
    };
}

/// Counts and keeps a damage; another fault changes nothing. Answers the fault.
pub(crate) fn note(noted: &mut Noted, fault: BlockFault) -> BlockFault
    ensures same { result ≡ fault }
    ensures notes { Notes noted.old fault noted.new }
{
    if let BlockFault::Damaged { at, want, found } = fault {
        *noted = Noted {
            count: noted.count.saturating_add(1),
            at,
            want,
            found,
        };
    }
    fault
}
