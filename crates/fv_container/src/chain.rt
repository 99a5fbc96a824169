//! The containers of all volumes, and look-ups along chains of parents.

ghost use Rattle.std.specs.Prelude.{◌≡◌, ◌<◌, ◌+◌, None, Some, IsSome, IsTrue, IfOk, IfErr, IfSome, option_copied, length, replicate, slice_index_or};
ghost use Rattle.std.specs.Option.{option_copied_mut};
ghost use Rattle.fv_store.specs.Held.{StandsOn};
ghost use Rattle.fv_disk.specs.DiskCalls.{OnlyReads};
ghost use Rattle.fv_disk.specs.Faults.{HasBlockCause};
ghost use Rattle.fv_container.specs.Mapped.{IsHeld};
ghost use Rattle.fv_container.specs.Clean.{IsCleanOn};
ghost use Rattle.fv_container.specs.Loading.{IsReadFault};
ghost use Rattle.fv_container.specs.Reading.{HasRead};
ghost use Rattle.fv_container.specs.Chains.{AreCleanOn, IsFaultIn, IsLeafFault, IsSlots, along, chain_entry, map_in, no_containers, own_entry, paged_at, parent_at, slot_count, with_container, with_parent};

use crate::container::Container;
use crate::entry::Entry;
use crate::fault::ContainerFault;
use crate::layout::filled;
use crate::steps::Steps;
use fv_disk::Disk;
use fv_store::Store;
use std::alloc::{AllocError, Global};
use std::marker::Model;
use std::sync::ledger::Ledger;

/// How many slots there are, to count a row by.
const SLOTS: usize = fv_codec::SLOTS as usize;

/// A container and a parent's slot for each volume slot that has them.
///
/// Slots are below 64. Contracts see the row of the containers and the row of the parents.
#[derive(Drop)]
pub struct Containers {
    containers: Vec<Option<Container>>,
    parents: Vec<Option<u8>>,
}

impl Model for Containers {
    ghost use Rattle.fv_container.specs.Chains.{Slots, IsSlots, slots_of};

    ghost Value = { Slots };

    ghost view = { λ slots. slots_of slots.containers.items slots.parents.items };

    ghost invariant = { λ slots. IsSlots (slots_of slots.containers.items slots.parents.items) };
}

impl Containers {
    ghost use Rattle.std.specs.Borrow.{LendsIf, sem};
    ghost use Rattle.fv_container.specs.contracts.chain.Containers.{the_row};
    ghost use Rattle.fv_container.specs.Rows.{container_row};

    /// No slot has a container. The one error is want of memory.
    pub fn new(alloc: Global) -> Result<Containers, AllocError>
        ensures { IfOk result (λ slots. slots ≡ no_containers) }
    {
        Ok(Containers {
            containers: free_slots(alloc)?,
            parents: filled(alloc, SLOTS, SLOTS, None)?,
        })
    }

    /// Gives a slot this container and parent, in place of those that it had. It takes no memory.
    pub fn put(&mut self, slot: u8, container: Container, parent: Option<u8>)
        requires slot { slot < slot_count }
        requires parent { IfSome parent (λ parent. parent < slot_count) }
        ensures put { self.new ≡ with_parent (with_container self.old slot (Some container)) slot parent }
        ensures there { paged_at self.new slot ≡ Some container }
        ensures parent { parent_at self.new slot ≡ parent }
        ensures valid { IsSlots self.new }
    {
        self.containers[slot as usize] = Some(container);
        self.parents[slot as usize] = parent;
    }

    /// Gives a slot with a container this parent. It takes no memory.
    pub fn set_parent(&mut self, slot: u8, parent: Option<u8>)
        requires slot { slot < slot_count }
        requires parent { IfSome parent (λ parent. parent < slot_count) }
        requires used { IsSome (paged_at self.old slot) }
        ensures { self.new ≡ with_parent self.old slot parent }
    {
        self.parents[slot as usize] = parent;
    }

    /// Takes container and parent of a slot away. It takes no memory.
    pub fn remove(&mut self, slot: u8)
        requires { slot < slot_count }
        ensures { self.new ≡ with_parent (with_container self.old slot None) slot None }
    {
        self.containers[slot as usize] = None;
        self.parents[slot as usize] = None;
    }

    /// The container of a slot, `None` exactly where it has none.
    pub fn get(&self, slot: u8) -> Option<&Container>
        requires { slot < slot_count }
        ensures { option_copied result ≡ paged_at self.now slot }
    {
        self.containers[slot as usize].as_ref()
    }

    /// There are as many slots as volumes can have. It costs nothing: it is here so that a proof sees it.
    pub fn known_slots(&self)
        ensures { IsSlots self.now }
    {
        let _ = self.containers[0].is_some();
    }

    /// The container of a slot, to be changed; `None` exactly where the slot has none. What the caller
    /// makes of the container is the slot's afterwards.
    pub fn get_mut(&mut self, slot: u8) -> Option<&mut Container>
        requires { slot < slot_count }
        ensures* writes_back { sem 𝓛 (LendsIf the_row container_row self.entry result (λ map. with_container self.old slot (Some map)) self.old) }
        ensures container { option_copied_mut result ≡ paged_at self.old slot }
        ensures valid { IsSlots self.old }
    {
        self.containers[slot as usize].as_mut()
    }

    /// The first entry of a VVBN along the chain of a slot: the slot's own container, that of its parent,
    /// of the parent's parent and so on, at most 64 volumes. `None` exactly where all of them have a hole
    /// there; a container has one from its number of entries on. It counts one step for the whole chain. Leaves that aren't in memory are
    /// read, and aren't held.
    ///
    /// # Errors
    /// `Damaged` comes only where a leaf of one of these containers hasn't the shape of one on the disk, and `DiskFault` only where a read
    /// failed in this call. `Memory` doesn't come. It reads one block at most for each volume.
    pub fn look_up_chain<D: Disk, L: Ledger>(
        &mut self,
        store: &mut Store,
        disk: &mut D,
        slot: u8,
        vvbn: u32,
        steps: &mut Steps<L>,
    ) -> Result<Option<Entry>, ContainerFault>
        requires within { slot < slot_count }
        requires stands { StandsOn (D.shown disk.old) store.old.pairs }
        ensures entry { IsTrue (D.shown disk.old).tells → AreCleanOn (D.shown disk.old).reads self.old
            → IfOk result (λ entry. entry ≡ chain_entry self.old slot vvbn) }
        ensures held { IfOk result (λ entry. IfSome entry IsHeld) }
        ensures fault { IsTrue (D.shown disk.old).tells → IfErr result (IsLeafFault (D.shown disk.old).reads self.old vvbn) }
        ensures kind { IfErr result IsReadFault }
        ensures same { self.new ≡ self.old }
        ensures step { steps.new ≡ steps.old + 1 }
        ensures only_reads { OnlyReads (D.shown disk.old) (D.shown disk.new) }
        ensures stands { StandsOn (D.shown disk.new) store.new.pairs }
        ensures cause { HasBlockCause (D.shown disk.old).faults (D.shown disk.new).faults result }
    {
        steps.tick();
        self.first_entry(store, disk, slot, vvbn)
    }

    /// The first entry of a VVBN along the chain of a slot, as `look_up_chain` finds it, where that isn't counted: it
    /// counts no step and takes no memory, and passes at most 64 volumes.
    ///
    /// # Errors
    /// As those of `look_up_chain`.
    #[tactic(auto, using(crate::proofs::Chains::found_here, crate::proofs::Chains::goes_up, crate::proofs::Chains::ends_above, crate::proofs::Chains::ends_after, crate::proofs::Chains::parent_within, crate::proofs::Chains::clean_at, crate::proofs::Chains::chain_fault, crate::proofs::Reading::reads_none, fv_disk::proofs::Resting::reads_then))]
    pub fn first_entry<D: Disk>(
        &self,
        store: &mut Store,
        disk: &mut D,
        slot: u8,
        vvbn: u32,
    ) -> Result<Option<Entry>, ContainerFault>
        requires within { slot < slot_count }
        requires stands { StandsOn (D.shown disk.old) store.old.pairs }
        ensures entry { IsTrue (D.shown disk.old).tells → AreCleanOn (D.shown disk.old).reads self.now
            → IfOk result (λ entry. entry ≡ chain_entry self.now slot vvbn) }
        ensures held { IfOk result (λ entry. IfSome entry IsHeld) }
        ensures fault { IsTrue (D.shown disk.old).tells → IfErr result (IsLeafFault (D.shown disk.old).reads self.now vvbn) }
        ensures kind { IfErr result IsReadFault }
        ensures only_reads { OnlyReads (D.shown disk.old) (D.shown disk.new) }
        ensures stands { StandsOn (D.shown disk.new) store.new.pairs }
        ensures cause { HasBlockCause (D.shown disk.old).faults (D.shown disk.new).faults result }
    {
        let mut at = slot;
        for _ in 0..SLOTS {
            if let Some(entry) = own_entry(&self.containers, store, disk, at, vvbn)? {
                return Ok(Some(entry));
            }
            let Some(parent) = parent_of(&self.parents, at) else {
                return Ok(None);
            };
            at = parent;
        }
        Ok(None)
    }
}

fn free_slots(alloc: Global) -> Result<Vec<Option<Container>>, AllocError>
    ensures { IfOk result (λ slots. slots.items ≡ replicate slot_count None) }
{
    let mut slots = Vec::with_capacity(alloc, SLOTS)?;
    for _ in 0..SLOTS {
        slots.push(None)?;
    }
    Ok(slots)
}

/// The entry that a slot's own container has.
fn own_entry<D: Disk>(
    containers: &[Option<Container>],
    store: &mut Store,
    disk: &mut D,
    slot: u8,
    vvbn: u32,
) -> Result<Option<Entry>, ContainerFault>
    requires within { slot < length containers.now }
    requires stands { StandsOn (D.shown disk.old) store.old.pairs }
    ensures entry { IsTrue (D.shown disk.old).tells → IfSome (slice_index_or containers.now slot None) (IsCleanOn (D.shown disk.old).reads)
        → IfOk result (λ entry. entry ≡ own_entry (map_in (slice_index_or containers.now slot None)) vvbn) }
    ensures held { IfOk result (λ entry. IfSome entry IsHeld) }
    ensures fault { IsTrue (D.shown disk.old).tells
        → IfErr result (IsFaultIn (D.shown disk.old).reads (slice_index_or containers.now slot None) vvbn) }
    ensures kind { IfErr result IsReadFault }
    ensures read { HasRead (D.shown disk.old) (D.shown disk.new) store.new.pairs result }
{
    match &containers[slot as usize] {
        Some(container) => container.find_or_none(store, disk, vvbn),
        None => Ok(None),
    }
}

fn parent_of(parents: &[Option<u8>], slot: u8) -> Option<u8>
    requires { slot < length parents.now }
    ensures { result ≡ slice_index_or parents.now slot None }
{
    parents[slot as usize]
}
