//! What a dump takes of its host.

ghost use Rattle.std.specs.Prelude.{◌≡◌, IfOk, IsTrue};
ghost use Rattle.fv_disk.specs.Shown.{Shown};
ghost use Rattle.fv_disk.specs.DiskCalls.{OnlyReads, Reads};
ghost use Rattle.fv_disk.specs.HostCalls.{GivesAll};
ghost use Rattle.fv_root.specs.Finding.{Finds, HasReadCause, IsInRange};
ghost use Rattle.fv_dump.specs.Looking.{Looks, fault_of};

use crate::ending::Fault;
use fv_disk::{Block, Failed, Host, ZERO, give_all};
use fv_root::{Found, RootFault, find_root};

/// What a dump takes of its host: blocks are read and bytes are given. There is no call that writes.
pub trait Look {
    /// What the host's disk gives, what a crash may leave of it, and its counts of faults.
    ghost shown: { Self → Shown };

    /// Reads block number `at`. At `Err` the content of `into` is open. Costs one block.
    fn look_at(&mut self, at: u64, into: &mut Block) -> Result<(), Failed>
        ensures { Reads (shown self.old) at (shown self.new) into.new result };

    /// Finds the root that counts, as `find_root` of `fv_root` does. Costs at most five blocks.
    fn look_for_root(&mut self) -> Result<Found, RootFault>
        ensures finds { IsTrue (shown self.old).tells → Finds (shown self.old).reads result }
        ensures range { IfOk result IsInRange }
        ensures only_reads { OnlyReads (shown self.old) (shown self.new) }
        ensures cause { HasReadCause (shown self.old).faults (shown self.new).faults result };

    /// Gives out all of `bytes`. At `Err` the sink failed, and a prefix was given, never the whole.
    fn say(&mut self, bytes: &[u8]) -> Result<(), Failed>
        ensures { GivesAll (shown self.old) bytes.now (shown self.new) result };
}

impl<H: Host> Look for H {
    ghost shown = { λ host. H.shown host };

    fn look_at(&mut self, at: u64, into: &mut Block) -> Result<(), Failed> {
        self.read(at, into)
    }

    fn look_for_root(&mut self) -> Result<Found, RootFault> {
        find_root(self)
    }

    fn say(&mut self, bytes: &[u8]) -> Result<(), Failed> {
        give_all(self, bytes)
    }
}

/// A block as it reads.
#[tactic(auto, using(crate::proofs::Looking::read_looks, crate::proofs::Looking::read_done))]
pub(crate) fn read<L: Look>(look: &mut L, at: u64) -> Result<Block, Fault>
    ensures { Looks (L.shown look.old) (L.shown look.new) (fault_of result) }
{
    let mut block = ZERO;
    match look.look_at(at, &mut block) {
        Ok(()) => Ok(block),
        Err(Failed) => Err(Fault::Disk),
    }
}
