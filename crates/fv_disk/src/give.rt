//! Giving out all of some bytes.

ghost use Rattle.std.specs.Prelude.{◌≡◌};
ghost use Rattle.fv_disk.specs.HostCalls.{GivesAll};
ghost use Rattle.fv_disk.specs.Crash.{Leaves};
ghost use Rattle.fv_disk.specs.Partly.{PartlyGiven};

use crate::{Failed, Host};

/// Gives out all of `bytes`, in as few calls as the sink allows: each takes what it can. At `Err` the
/// sink's count of faults rose, and a prefix was given, never the whole. It takes no memory.
pub fn give_all<H: Host>(host: &mut H, bytes: &[u8]) -> Result<(), Failed>
    ensures gives { GivesAll (H.shown host.old) bytes.now (H.shown host.new) result }
    ensures any_moment { Leaves (H.shown host.old) (H.shown host.new) (PartlyGiven (H.shown host.old) bytes.now) }
{
    let mut rest = bytes;
    while !rest.is_empty() {
        let count = host.give(rest)?;
        let (_, left) = rest.split_at(count);
        rest = left;
    }
    Ok(())
}
