//! What is admitted of changes of a volume's files: which file each changes, how the ledger changes by it, and whether there is room.

ghost use Rattle.std.specs.Prelude.{◌≡◌, ◌≤◌, ◌+◌, ◌^◌, pos, ℕ, List, IfErr, OnOk};
ghost use Rattle.fv_root.specs.Formatted.{IsSize};
ghost use Rattle.fv_model.specs.Machines.{Machine, capacity};
ghost use Rattle.fv_model.specs.Numbers.{greatest_span};
ghost use Rattle.fv_model.specs.declared.answers.Refusal.{Refusal};
ghost use Rattle.fv_model.specs.declared.commands.Command.{Command};
ghost use Rattle.fv_charge.specs.Changes.{CanChange, IsChanged, IsLeft};
ghost use Rattle.fv_charge.specs.declared.ledger.Ledger as ledgers;
ghost use Rattle.fv_pool.specs.declared.fault.VolumeFault.TheVariants.{Refused};
ghost use Rattle.fv_volume.specs.Changing.{SpaceSays};
ghost use Rattle.fv_volume.specs.OneVolume.{greatest_charge};

use fv_charge::{Delta, Ledger};
use fv_inode::Info;
use fv_pool::VolumeFault;
use fv_root::capacity;

/// How many changes a volume can count: the stamps that a label can say.
pub(crate) const MOST_CHANGES: u64 = 4_611_686_018_427_387_904;

/// A change that was admitted: the file that it changes, and how the ledger of the volume changes by it.
#[derive(Clone, Copy, Debug, PartialEq, Eq)]
pub(crate) struct Admission {
    /// The file.
    pub(crate) info: Info,
    /// The change of the ledger.
    pub(crate) delta: Delta,
}

/// A new file that was admitted: its number, and how the ledger of the volume changes by it.
#[derive(Clone, Copy, Debug, PartialEq, Eq)]
pub(crate) struct Making {
    /// Its number.
    pub(crate) number: u32,
    /// The change of the ledger.
    pub(crate) delta: Delta,
}

/// A removal that was admitted: the file that it changes, and how the ledger of the volume changes by it, where that is told before. It is
/// told in a volume with snapshots or a base. In one with neither nothing stays charged and no removal needs blocks, so nothing is read to
/// tell it.
#[derive(Clone, Copy, Debug, PartialEq, Eq)]
pub(crate) struct Removing {
    /// The file.
    pub(crate) info: Info,
    /// The change of the ledger, where it is told before.
    pub(crate) delta: Option<Delta>,
}

/// A change of a ledger by so many blocks more.
pub(crate) fn more_blocks(ledger: &Ledger, count: u32) -> Delta
    requires charge { ledger.now.charge ≤ greatest_charge }
    requires need { ledger.now.need ≡ 0 }
    requires few { count ≤ 14 }
    ensures charge { result.charge ≡ pos count }
    ensures need { result.need ≡ pos 0 }
    ensures size { result.size ≡ ledger.now.size }
    ensures kind { result.kind ≡ ledger.now.kind }
    ensures fits { CanChange ledger.now result }
{
    Delta {
        charge: risen(count),
        need: 0,
        size: ledger.size,
        kind: ledger.kind,
    }
}

/// A number of blocks, as one by which a charge rises.
fn risen(count: u32) -> i64
    ensures { result ≡ pos count }
{
    i64::from(count)
}

/// Whether there is room for a change of a volume's ledger in an aggregate of so many blocks, beside what others commit.
#[tactic(auto, using(crate::proofs::Changed::space_accepts, crate::proofs::Changed::space_refuses, crate::proofs::Changed::within_size))]
pub(crate) fn admit_change(
    ledger: &Ledger,
    delta: &Delta,
    others: u64,
    blocks: u32,
) -> Result<(), VolumeFault>
    requires fits { CanChange ledger.now delta.now }
    requires span { ledger.now.span ≤ greatest_span }
    requires others { others ≤ 2 ^ 62 }
    requires blocks { IsSize blocks }
    ensures within { OnOk result ((l : ledgers.Ledger) → IsChanged ledger.now delta.now l → l.charge + l.need ≤ l.size) }
    ensures refusal { IfErr result (λ e. (r : Refusal) × (e ≡ Refused r)) }
    ensures machine { (m : Machine) (c : Command) (v : List ℕ) (l : ledgers.Ledger) → IsChanged ledger.now delta.now l → IsLeft m c v l others (capacity blocks) → SpaceSays m c v result }
{
    match ledger.admit(delta, others, capacity(blocks)) {
        Ok(()) => Ok(()),
        Err(refusal) => Err(VolumeFault::Refused(refusal)),
    }
}
