//! The size and the kind of guarantee of the volume of a name.

ghost use Rattle.std.specs.Prelude.{◌≡◌, ◌<◌, ◌≤◌, ◌-◌, ◌^◌, ℕ, IfSome, option_copied};
ghost use Rattle.fv_container.specs.Chains.{slot_count};
ghost use Rattle.fv_model.specs.declared.commands.Command.TheVariants.{VolGuarantee, VolResize};
ghost use Rattle.fv_model.specs.Numbers.{greatest_span};
ghost use Rattle.fv_root.specs.Formatted.{IsSize};
ghost use Rattle.fv_volume.specs.Files.{IsLabelled};
ghost use Rattle.fv_volume.specs.OneVolume.{IsBooked};
ghost use Rattle.fv_volume.specs.Promising.{PromisesAt, PromisesOne};
ghost use Rattle.fv_volume.specs.Slots.{committed_by, sum_of};
ghost use Rattle.fv_volume.specs.States.{state_at};

use crate::volumes::Volumes;
use fv_model::{Kind, Name, Refusal, in_size};
use fv_volume::VolumeState;

impl Volumes {
    /// Sets the size of the volume of a name, in blocks, in an aggregate of so many blocks. The other volumes stay, and so does what the
    /// volume holds.
    ///
    /// # Errors
    /// The refusal comes exactly where the machine refuses `vol resize`, and is its refusal: a size that isn't 1 to 500,000, no such volume,
    /// a size past the volume's greatest, less than it uses, and commits that would pass the capacity, in this order. Nothing changes then.
    ///
    /// `commits` is what all volumes commit together, in blocks, before the call and behind it.
    ///
    /// Costs a comparison for each volume and a step, takes no memory and makes no call of a disk.
    pub fn resize(
        &mut self,
        blocks: u32,
        commits: &mut u64,
        name: &Name,
        size: u32,
    ) -> Result<(), Refusal>
        requires each { (s : ℕ) → IfSome (state_at self.old s) (IsLabelled s) }
        requires booked { (s : ℕ) → IfSome (state_at self.old s) IsBooked }
        requires blocks { IsSize blocks }
        requires sum { commits.old ≡ sum_of self.old }
        ensures promises { PromisesOne self.old blocks (VolResize name.now size) name.now (λ x. size) (λ x. x.kind) self.new result }
        ensures sum { commits.new ≡ sum_of self.new }
    {
        if !in_size(u64::from(size)) {
            return Err(Refusal::Range);
        }
        match self.find(name) {
            Some(slot) => self.resize_at(blocks, commits, slot, size),
            None => Err(Refusal::NoVolume),
        }
    }

    /// Sets the kind of guarantee of the volume of a name, in an aggregate of so many blocks. The other volumes stay, and so does what the
    /// volume holds.
    ///
    /// # Errors
    /// The refusal comes exactly where the machine refuses `vol guarantee`, and is its refusal: no such volume, a size less than it uses, and
    /// commits that would pass the capacity, in this order. Nothing changes then.
    ///
    /// `commits` is what all volumes commit together, in blocks, before the call and behind it.
    ///
    /// Costs a comparison for each volume and a step, takes no memory and makes no call of a disk.
    pub fn guarantee(
        &mut self,
        blocks: u32,
        commits: &mut u64,
        name: &Name,
        kind: Kind,
    ) -> Result<(), Refusal>
        requires each { (s : ℕ) → IfSome (state_at self.old s) (IsLabelled s) }
        requires booked { (s : ℕ) → IfSome (state_at self.old s) IsBooked }
        requires blocks { IsSize blocks }
        requires sum { commits.old ≡ sum_of self.old }
        ensures promises { PromisesOne self.old blocks (VolGuarantee name.now kind) name.now (λ x. x.size) (λ x. kind) self.new result }
        ensures sum { commits.new ≡ sum_of self.new }
    {
        match self.find(name) {
            Some(slot) => self.guarantee_at(blocks, commits, slot, kind),
            None => Err(Refusal::NoVolume),
        }
    }

    /// What all volumes but that of a slot below 64 commit together, in blocks; `commits` is what all commit. Costs a step.
    pub fn commits_beside(&self, commits: u64, slot: u8) -> u64
        requires slot { slot < slot_count }
        requires labelled { IfSome (state_at self.now slot) (IsLabelled slot) }
        requires sum { commits ≡ sum_of self.now }
        ensures { result ≡ sum_of self.now - committed_by (state_at self.now slot) }
    {
        commits.saturating_sub(commit_of(self.get(slot)))
    }

    /// Sets the size of the volume of a slot.
    fn resize_at(
        &mut self,
        blocks: u32,
        commits: &mut u64,
        slot: u8,
        size: u32,
    ) -> Result<(), Refusal>
        requires slot { slot < slot_count }
        requires labelled { IfSome (state_at self.old slot) (IsLabelled slot) }
        requires booked { IfSome (state_at self.old slot) IsBooked }
        requires blocks { IsSize blocks }
        requires sum { commits.old ≡ sum_of self.old }
        requires few { commits.old ≤ 2 ^ 40 }
        ensures promises { PromisesAt self.old blocks slot (state_at self.old slot) (λ x. VolResize x.name size) (λ x. size) (λ x. x.kind) self.new result }
        ensures sum { commits.new ≡ sum_of self.new }
    {
        let others = self.commits_beside(*commits, slot);
        match self.get_mut(slot) {
            Some(state) => {
                let made = state.resize(blocks, others, size);
                *commits = others + state.ledger.commit();
                made
            }
            None => Err(Refusal::NoVolume),
        }
    }

    /// Sets the kind of guarantee of the volume of a slot.
    fn guarantee_at(
        &mut self,
        blocks: u32,
        commits: &mut u64,
        slot: u8,
        kind: Kind,
    ) -> Result<(), Refusal>
        requires slot { slot < slot_count }
        requires labelled { IfSome (state_at self.old slot) (IsLabelled slot) }
        requires booked { IfSome (state_at self.old slot) IsBooked }
        requires blocks { IsSize blocks }
        requires sum { commits.old ≡ sum_of self.old }
        requires few { commits.old ≤ 2 ^ 40 }
        ensures promises { PromisesAt self.old blocks slot (state_at self.old slot) (λ x. VolGuarantee x.name kind) (λ x. x.size) (λ x. kind) self.new result }
        ensures sum { commits.new ≡ sum_of self.new }
    {
        let others = self.commits_beside(*commits, slot);
        match self.get_mut(slot) {
            Some(state) => {
                let made = state.guarantee(blocks, others, kind);
                *commits = others + state.ledger.commit();
                made
            }
            None => Err(Refusal::NoVolume),
        }
    }
}

/// What the volume of a slot commits; nothing for a free one.
fn commit_of(state: Option<&VolumeState>) -> u64
    requires { IfSome (option_copied state) (λ x. x.ledger.span ≤ greatest_span) }
    ensures { result ≡ committed_by (option_copied state.entry) }
{
    match state {
        Some(state) => state.ledger.commit(),
        None => 0,
    }
}
