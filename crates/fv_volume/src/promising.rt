//! The size and the kind of guarantee of a volume.

ghost use Rattle.std.specs.Prelude.{◌≡◌, ◌<◌, ◌≤◌, ◌-◌, ◌^◌, ◌&&◌, ℕ, List, OnOk, OnErr, nat_le};
ghost use Rattle.fv_model.specs.declared.commands.Command.{Command};
ghost use Rattle.fv_model.specs.declared.commands.Command.TheVariants.{VolGuarantee, VolResize};
ghost use Rattle.fv_model.specs.Machines.{Machine, capacity};
ghost use Rattle.fv_model.specs.Numbers.{greatest_span, is_size};
ghost use Rattle.fv_model.specs.Refusals.{first_of, space};
ghost use Rattle.fv_charge.specs.Changes.{IsLeft};
ghost use Rattle.fv_root.specs.Formatted.{IsSize};
ghost use Rattle.fv_volume.specs.Files.{IsLabelled};
ghost use Rattle.fv_volume.specs.OneVolume.{IsBooked, greatest_charge};
ghost use Rattle.fv_volume.specs.Promising.{FitsBeside, Promises, promised, promised_ledger, refusal_of};

use crate::state::VolumeState;
use fv_charge::{Delta, Ledger};
use fv_model::{Kind, Name, Refusal, in_size};
use fv_root::capacity;

impl VolumeState {
    /// Sets the size of the volume, in blocks. The greatest size that it may get stays.
    ///
    /// `blocks` is the aggregate's number of blocks, and `others` what its other volumes commit together, at most 2^62.
    ///
    /// # Errors
    /// The refusal comes exactly where the machine refuses `vol resize`, and is its refusal: a size that isn't 1 to 500,000 or passes the
    /// volume's greatest, then less than it uses, then commits that would pass the capacity. Nothing changes then.
    ///
    /// Costs a step, takes no memory and makes no call of a disk. `docs/MACHINE.md` has the command.
    pub fn resize(&mut self, blocks: u32, others: u64, size: u32) -> Result<(), Refusal>
        requires booked { IsBooked self.old }
        requires labelled { IsLabelled self.old.slot self.old }
        requires blocks { IsSize blocks }
        requires others { others ≤ 2 ^ 62 }
        ensures { Promises self.old blocks others (VolResize self.old.name size) size self.old.kind self.new result }
    {
        if !is_within(size, self.most) {
            return Err(Refusal::Range);
        }
        let kind = self.kind;
        promise(self, blocks, others, size, kind)
    }

    /// Sets the kind of guarantee of the volume.
    ///
    /// `blocks` is the aggregate's number of blocks, and `others` what its other volumes commit together, at most 2^62.
    ///
    /// # Errors
    /// The refusal comes exactly where the machine refuses `vol guarantee`, and is its refusal: the volume would use more than its size, or
    /// commits would pass the capacity. Nothing changes then.
    ///
    /// Costs a step, takes no memory and makes no call of a disk. `docs/MACHINE.md` has the command.
    pub fn guarantee(&mut self, blocks: u32, others: u64, kind: Kind) -> Result<(), Refusal>
        requires booked { IsBooked self.old }
        requires labelled { IsLabelled self.old.slot self.old }
        requires blocks { IsSize blocks }
        requires others { others ≤ 2 ^ 62 }
        ensures { Promises self.old blocks others (VolGuarantee self.old.name kind) self.old.size kind self.new result }
    {
        let size = self.size;
        promise(self, blocks, others, size, kind)
    }
}

/// Whether a size can be that of a volume that may get so many blocks.
fn is_within(size: u32, most: u32) -> bool
    ensures { result ≡ (is_size size && nat_le size most) }
{
    in_size(u64::from(size)) && size <= most
}

/// Gives a volume this size and kind, where there is room for them.
fn promise(
    volume: &mut VolumeState,
    blocks: u32,
    others: u64,
    size: u32,
    kind: Kind,
) -> Result<(), Refusal>
    requires booked { IsBooked volume.old }
    requires span { volume.old.ledger.span ≤ greatest_span }
    requires blocks { IsSize blocks }
    requires others { others ≤ 2 ^ 62 }
    ensures done { OnOk result (volume.new ≡ promised volume.old size kind) }
    ensures stays { OnErr result (volume.new ≡ volume.old) }
    ensures fits { OnOk result (FitsBeside blocks others (promised_ledger volume.old.ledger size kind)) }
    ensures machine { (m : Machine) (c : Command) (v : List ℕ) → IsLeft m c v (promised_ledger volume.old.ledger size kind) others (capacity blocks)
        → first_of (space m c v) ≡ refusal_of result }
{
    admit_promise(&volume.ledger, blocks, others, size, kind)?;
    volume.size = size;
    volume.kind = kind;
    volume.ledger.size = size;
    volume.ledger.kind = kind;
    volume.changed = true;
    Ok(())
}

/// Whether there is room for a size and a kind of the volume of a ledger, beside what others commit.
#[tactic(auto, using(crate::proofs::Promised::can_promise, crate::proofs::Promised::promise_moves, crate::proofs::Promised::promise_fits))]
fn admit_promise(
    ledger: &Ledger,
    blocks: u32,
    others: u64,
    size: u32,
    kind: Kind,
) -> Result<(), Refusal>
    requires charge { ledger.now.charge ≤ greatest_charge }
    requires need { ledger.now.need ≡ 0 }
    requires span { ledger.now.span ≤ greatest_span }
    requires blocks { IsSize blocks }
    requires others { others ≤ 2 ^ 62 }
    ensures fits { OnOk result (FitsBeside blocks others (promised_ledger ledger.now size kind)) }
    ensures machine { (m : Machine) (c : Command) (v : List ℕ) → IsLeft m c v (promised_ledger ledger.now size kind) others (capacity blocks)
        → first_of (space m c v) ≡ refusal_of result }
{
    let delta = Delta {
        charge: 0,
        need: 0,
        size,
        kind,
    };
    ledger.admit(&delta, others, capacity(blocks))
}
