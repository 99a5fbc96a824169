//! Removing a volume.

ghost use Rattle.std.specs.Prelude.{◌≡◌, ◌<◌, ◌≤◌, false, Some, None, IfErr, IfOk, IfSome, length};
ghost use Rattle.fv_bits.specs.Members.{is_member};
ghost use Rattle.fv_container.specs.Chains.{container_at, slot_count};
ghost use Rattle.fv_container.specs.Spelled.{names};
ghost use Rattle.fv_delay.specs.Reclaims.{HasGivenSome};
ghost use Rattle.fv_disk.specs.DiskCalls.{OnlyReads};
ghost use Rattle.fv_disk.specs.Faults.{HasBlockCause};
ghost use Rattle.fv_pool.specs.BlocksOver.{IsHoldFault, LeavesPool, TellsEntries};
ghost use Rattle.fv_model.specs.declared.answers.Refusal.{Refusal};
ghost use Rattle.fv_pool.specs.declared.fault.VolumeFault.TheVariants.{Refused};
ghost use Rattle.fv_pool.specs.Causes.{HasVolumeCause};
ghost use Rattle.fv_store.specs.Held.{StandsOn};
ghost use Rattle.fv_image.specs.Views.{entry_count};
ghost use Rattle.fv_model.specs.Numbers.{greatest_span};
ghost use Rattle.fv_volumes.specs.Destroying.{Destroys, EmptiesAt, GivesBackAt, HasForgotten, HasForgottenSome, MarksAt};
ghost use Rattle.fv_volume.specs.Files.{IsLabelled};
ghost use Rattle.fv_volumes.specs.Housed.{AreHoused};
ghost use Rattle.fv_volume.specs.Loading.{Houses};
ghost use Rattle.fv_volume.specs.Slots.{sum_of};
ghost use Rattle.fv_volume.specs.States.{state_at, with_state};
ghost use Rattle.fv_volume.specs.Stored.{is_of, leads};
ghost use Rattle.fv_volume.specs.Writing.{HasGiven};

use crate::volumes::Volumes;
use fv_aggmap::AggMap;
use fv_bits::BitMap;
use fv_container::Container;
use fv_disk::{BlockFault, Disk};
use fv_model::{Name, Refusal};
use fv_volume::{Kept, Pool, VolumeFault, VolumeState};

/// How many blocks an entry can lead to: bits for them take 128 KB.
const PLACES: u32 = 1_048_576;

impl Volumes {
    /// Removes the volume of a name with all that it holds. Its slot is free then and has no container. Its label, the nodes of its container
    /// and the blocks of its entries are given back: the next root won't hold them, and until the next consistency point no block is taken that
    /// the root on the disk holds. None of them waits to be written any more. The other volumes stay. All that is read is read before the
    /// first block is given back.
    ///
    /// # Errors
    /// As the machine refuses `vol destroy`: `NoVolume` exactly where no volume has the name, and `VolumeInUse` exactly where a clone stands on
    /// the volume, on whichever of its snapshots; nothing changes then, and nothing was read.
    /// `Damaged` only where a leaf of the container doesn't stand where it has to, `DiskFault` only where a read failed in this call, and
    /// `Memory` where memory ran out. Nothing but the cache changes then.
    ///
    /// `commits` is what all volumes commit together, in blocks, before the call and behind it.
    ///
    /// Costs a comparison for each volume, a step for each slot, a read for each leaf of the container that is there and not in memory, a step for each entry, each
    /// node of the container and each block that is given back, and one for each word of 64 blocks that an aggregate can have; and memory
    /// for a bit for each of these, 128 KB. It walks no file. `docs/SPACE.md` says when the blocks can be used again.
    pub fn destroy<D: Disk>(
        &mut self,
        pool: &mut Pool,
        disk: &mut D,
        commits: &mut u64,
        name: &Name,
    ) -> Result<(), VolumeFault>
        requires stands { StandsOn (D.shown disk.old) pool.old.store.pairs }
        requires housed { AreHoused pool.old.containers self.old }
        requires sum { commits.old ≡ sum_of self.old }
        ensures destroys { Destroys (D.shown disk.old) self.old pool.old name.now self.new pool.new result }
        ensures refused { IfErr result (λ fault. (r : Refusal) → fault ≡ Refused r → (disk.new ≡ disk.old) × (pool.new ≡ pool.old)) }
        ensures sum { commits.new ≡ sum_of self.new }
        ensures stands { StandsOn (D.shown disk.new) pool.new.store.pairs }
        ensures only_reads { OnlyReads (D.shown disk.old) (D.shown disk.new) }
        ensures cause { HasVolumeCause (D.shown disk.old).faults (D.shown disk.new).faults result }
    {
        match self.find(name) {
            Some(slot) => {
                if self.is_stood_on(slot) {
                    return Err(VolumeFault::Refused(Refusal::VolumeInUse));
                }
                let marks = self.mark_slot(pool, disk, slot)?;
                *commits = self.commits_beside(*commits, slot);
                self.empty_slot(pool, slot, &marks);
                Ok(())
            }
            None => Err(VolumeFault::Refused(Refusal::NoVolume)),
        }
    }

    /// Marks the blocks to which the entries of the volume of a slot lead.
    fn mark_slot<D: Disk>(
        &self,
        pool: &mut Pool,
        disk: &mut D,
        slot: u8,
    ) -> Result<BitMap, BlockFault>
        requires slot { slot < slot_count }
        requires stands { StandsOn (D.shown disk.old) pool.old.store.pairs }
        ensures marks { TellsEntries (D.shown disk.old) pool.old.containers → IfOk result (λ marks. MarksAt marks (container_at pool.old.containers slot)) }
        ensures leaves { LeavesPool pool.old pool.new }
        ensures fault { IfErr result (IsHoldFault (D.shown disk.old) pool.old.containers) }
        ensures stands { StandsOn (D.shown disk.new) pool.new.store.pairs }
        ensures only_reads { OnlyReads (D.shown disk.old) (D.shown disk.new) }
        ensures cause { HasBlockCause (D.shown disk.old).faults (D.shown disk.new).faults result }
    {
        let mut marks = BitMap::new(self.alloc, PLACES)?;
        let Some(container) = pool.containers.get(slot) else {
            return Ok(marks);
        };
        container.mark_blocks(&mut pool.store, disk, &mut marks)?;
        Ok(marks)
    }

    /// Removes the volume of a slot, to whose entries' blocks these marks lead.
    #[tactic(auto, using(crate::proofs::Destroyed::emptied))]
    fn empty_slot(&mut self, pool: &mut Pool, slot: u8, marks: &BitMap)
        requires slot { slot < slot_count }
        requires housed { Houses (state_at self.old slot) (container_at pool.old.containers slot) }
        requires labelled { IfSome (state_at self.old slot) (IsLabelled slot) }
        ensures empties { EmptiesAt marks.now self.old pool.old slot (state_at self.old slot) (container_at pool.old.containers slot) self.new pool.new }
        ensures row { self.new ≡ with_state self.old slot None }
        ensures store { pool.new.store ≡ pool.old.store }
    {
        give_back_slot(self, pool, slot, marks);
        self.clear(slot);
        pool.containers.remove(slot);
    }
}

/// Gives back the blocks of the volume of a slot.
fn give_back_slot(volumes: &Volumes, pool: &mut Pool, slot: u8, marks: &BitMap)
    requires slot { slot < slot_count }
    requires housed { Houses (state_at volumes.now slot) (container_at pool.old.containers slot) }
    requires labelled { IfSome (state_at volumes.now slot) (IsLabelled slot) }
    ensures { GivesBackAt marks.now pool.old (state_at volumes.entry.now slot) (container_at pool.old.containers slot) pool.new }
{
    let Some(state) = volumes.get(slot) else {
        return;
    };
    let Some(container) = pool.containers.get(slot) else {
        return;
    };
    give_back_volume(state, container, marks, &mut pool.map, &mut pool.kept);
}

/// Gives back all blocks of a volume, and keeps none of them to be written. Costs a step for each word of 64 marks, each mark that is set and
/// each node of its container.
#[tactic(auto, using(crate::proofs::Destroyed::volume_given, crate::proofs::Destroyed::volume_forgotten))]
fn give_back_volume(
    state: &VolumeState,
    container: &Container,
    marks: &BitMap,
    map: &mut AggMap,
    kept: &mut Kept,
)
    requires span { state.now.span ≤ greatest_span }
    requires long { length container.now.map.entries ≡ entry_count state.now.span }
    ensures some { HasGivenSome map.old map.new }
    ensures given { MarksAt marks.now (Some container.now.map) → HasGiven map.old (is_of state.entry.now state.entry.now.label container.entry.now.map) map.new }
    ensures kept { MarksAt marks.now (Some container.now.map) → HasForgotten kept.old (leads container.entry.now.map (entry_count state.entry.now.span)) kept.new }
    ensures fewer { HasForgottenSome kept.old kept.new }
{
    give_back_marked(marks, map, kept);
    give_back_nodes(container, map);
    map.give_back(state.label_place());
}

/// Gives back the blocks that are marked, and keeps none of them. 0 is no block. Costs a step for each word of 64 marks, and for each mark
/// that is set.
fn give_back_marked(marks: &BitMap, map: &mut AggMap, kept: &mut Kept)
    ensures given { is_member marks.now 0 ≡ false → HasGiven map.old (is_member marks.now) map.new }
    ensures some { HasGivenSome map.old map.new }
    ensures kept { HasForgotten kept.old (is_member marks.now) kept.new }
{
    // The length is a number of 32 bits, so there is one behind each member.
    let _ = marks.len();
    let mut from = 0;
    while let Some(place) = marks.first_member(from) {
        map.give_back(place);
        kept.forget(place);
        from = place + 1;
    }
}

/// Gives back the nodes of a container.
fn give_back_nodes(container: &Container, map: &mut AggMap)
    ensures { HasGiven map.old (names container.entry.now.map.tree) map.new }
{
    // The size that the map is known to have is that of an aggregate.
    let _ = map.blocks();
    container.release_tree(map);
}
