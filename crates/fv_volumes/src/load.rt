//! Reading the volumes of a root: labels, containers and maps.

ghost use Rattle.std.specs.Prelude.{◌≡◌, ℕ, IfSome, ◌<◌, ◌≤◌, ◌+◌, ◌*◌, length, replicate, None, Some, IfOk, IfErr, OnOk, OnErr, IsTrue, false, get_or, is_some, ◌++◌, ◌∷◌, []};
ghost use Rattle.fv_bits.specs.Bits.{block_bits};
ghost use Rattle.fv_codec.specs.Blocks.{IsLabel, label_at};
ghost use Rattle.fv_container.specs.Chains.{no_containers, paged_at, parent_at, slot_count, with_container, with_parent};
ghost use Rattle.fv_container.specs.Mapped.{IsMapped, Mapped, entry_under};
ghost use Rattle.fv_container.specs.Clean.{IsCleanOn, IsCleanTree};
ghost use Rattle.fv_container.specs.Spelled.{IsFault, IsOpened};
ghost use Rattle.fv_disk.specs.DiskCalls.{OnlyReads};
ghost use Rattle.fv_disk.specs.Faults.{HasBlockCause};
ghost use Rattle.fv_image.specs.Views.{entry_count, footing_of, head_of, map_vvbn};
ghost use Rattle.fv_model.specs.Numbers.{greatest_span};
ghost use Rattle.fv_model.specs.Space.{map_blocks};
ghost use Rattle.fv_store.specs.Held.{StandsOn};
ghost use Rattle.fv_volumes.specs.Finding.{AreMapEntries};
ghost use Rattle.fv_volmap.specs.Slots.{IsVolume, Loads, slot_at, slot_count as map_slot_count, slot_of_base, stored_count};
ghost use Rattle.fv_volume.specs.KnownBase.{KnowBases};
ghost use Rattle.fv_volume.specs.Loading.{AreCountedTo, Counts, IsBadLabel, IsBadMap, IsBadSlot, IsCountable, IsFilled, IsLoadFault, IsLoaded, KeptTo, KeepsOthers, LoadedTo, ReadTo, form_in};
ghost use Rattle.fv_volume.specs.SlotReads.{AreUsedTo, HasReadSlot, HoldsBase, HaveRead, IsAway, IsOpenedOn, IsReadable, IsSnapSlot, TakesSlot};
ghost use Rattle.fv_volume.specs.States.{head_in, parent_in, state_at};

use crate::learning::learn_bases;
use fv_codec::Label;
use fv_container::{Container, Containers, Entry};
use fv_disk::{Block, BlockFault, Disk, ZERO};
use fv_model::map_blocks;
use fv_root::Found;
use fv_store::Store;
use fv_volmap::{BASE_SLOT, MapSlot, VolMap};
use fv_volume::{Snapshots, VolumeState, entry_count, map_vvbn, read_label};
use std::alloc::{AllocError, Global};

/// The most blocks that the map of a slot has.
const MOST_BLOCKS: usize = 32;

/// Takes zeros as block `index` of the map of a slot. The one error is want of memory.
fn take_zeros(map: &mut VolMap, slot: MapSlot, index: u32) -> Result<(), AllocError>
    requires slot { slot < map_slot_count }
    requires within { block_bits * index < map.old.span }
    ensures taken { OnOk result (Loads map.old slot index (replicate 4096 0) map.new) }
    ensures valid { IsVolume map.new }
{
    map.load_slot(slot, index, &ZERO)?;
    Ok(())
}

/// Finds the entries of the blocks of the map of a slot, and puts them at the front of a row. The container was opened from the disk, and
/// no leaf of it is in memory: each leaf that has one of these entries is read once through the store, and isn't held.
fn find_map_blocks<D: Disk>(
    store: &mut Store,
    disk: &mut D,
    container: &Container,
    span: u32,
    slot: MapSlot,
    row: &mut [Option<Entry>; MOST_BLOCKS],
) -> Result<(), BlockFault>
    requires stands { StandsOn (D.shown disk.old) store.old.pairs }
    requires spans { IsReadable container.now.map span }
    requires away { IsAway container.now }
    requires slot { slot < stored_count }
    ensures found { IsTrue (D.shown disk.old).tells → IsOpenedOn (D.shown disk.old).reads container.now.map
        → OnOk result (AreMapEntries container.now.map span slot row.new) }
    ensures fault { IsTrue (D.shown disk.old).tells → IfErr result (IsBadSlot (D.shown disk.old).reads container.now.map span slot) }
    ensures only_reads { OnlyReads (D.shown disk.old) (D.shown disk.new) }
    ensures stands { StandsOn (D.shown disk.new) store.new.pairs }
    ensures cause { HasBlockCause (D.shown disk.old).faults (D.shown disk.new).faults result }
{
    let first = map_vvbn(span, slot, 0);
    container.find_row(store, disk, first, &mut row[..map_blocks(span) as usize])
}

/// Takes block `index` of the map of a slot, to which this entry leads; a hole is taken as a block of zeros.
fn read_map_block<D: Disk>(
    store: &mut Store,
    disk: &mut D,
    entry: Option<Entry>,
    map: &mut VolMap,
    span: u32,
    slot: MapSlot,
    index: u32,
) -> Result<(), BlockFault>
    requires stands { StandsOn (D.shown disk.old) store.old.pairs }
    requires least { 1 ≤ span }
    requires map { map.old.span ≡ span }
    requires slot { slot < stored_count }
    requires within { index < map_blocks span }
    ensures takes { OnOk result (TakesSlot map.old slot 1 map.new) }
    ensures read { (c : Mapped) → IsTrue (D.shown disk.old).tells → entry_under c (map_vvbn span slot index) ≡ entry
        → HasReadSlot (D.shown disk.old).reads c span slot index map.old
        → OnOk result (HasReadSlot (D.shown disk.old).reads c span slot (index + 1) map.new) }
    ensures fault { (c : Mapped) → IsTrue (D.shown disk.old).tells → entry_under c (map_vvbn span slot index) ≡ entry
        → IfErr result (IsBadSlot (D.shown disk.old).reads c span slot) }
    ensures only_reads { OnlyReads (D.shown disk.old) (D.shown disk.new) }
    ensures stands { StandsOn (D.shown disk.new) store.new.pairs }
    ensures cause { HasBlockCause (D.shown disk.old).faults (D.shown disk.new).faults result }
{
    let Some(entry) = entry else {
        take_zeros(map, slot, index)?;
        return Ok(());
    };
    let mut block = ZERO;
    store.get(disk, entry.pvbn, &mut block)?;
    match map.load_slot(slot, index, &block)? {
        None => Ok(()),
        Some(number) => Err(BlockFault::Damaged {
            at: u64::from(entry.pvbn),
            want: u64::from(span) - 1,
            found: u64::from(number),
        }),
    }
}

/// Takes all blocks of the map of a slot. The entries that lead to them are found first, all at once.
fn read_slot<D: Disk>(
    store: &mut Store,
    disk: &mut D,
    container: &Container,
    map: &mut VolMap,
    span: u32,
    slot: MapSlot,
) -> Result<(), BlockFault>
    requires stands { StandsOn (D.shown disk.old) store.old.pairs }
    requires spans { IsReadable container.now.map span }
    requires away { IsAway container.now }
    requires map { map.old.span ≡ span }
    requires slot { slot < stored_count }
    ensures takes { OnOk result (TakesSlot map.old slot (map_blocks span) map.new) }
    ensures read { IsTrue (D.shown disk.old).tells → IsOpenedOn (D.shown disk.old).reads container.now.map → HasReadSlot (D.shown disk.old).reads container.now.map span slot 0 map.old
        → OnOk result (HasReadSlot (D.shown disk.old).reads container.now.map span slot (map_blocks span) map.new) }
    ensures fault { IsTrue (D.shown disk.old).tells → IsOpenedOn (D.shown disk.old).reads container.now.map → IfErr result (IsBadSlot (D.shown disk.old).reads container.now.map span slot) }
    ensures only_reads { OnlyReads (D.shown disk.old) (D.shown disk.new) }
    ensures stands { StandsOn (D.shown disk.new) store.new.pairs }
    ensures cause { HasBlockCause (D.shown disk.old).faults (D.shown disk.new).faults result }
{
    let mut row = [None; MOST_BLOCKS];
    find_map_blocks(store, disk, container, span, slot, &mut row)?;
    for index in 0..map_blocks(span) {
        read_map_block(store, disk, row[index as usize], map, span, slot, index)?;
    }
    Ok(())
}

/// Takes the map of a slot, if it is a snapshot's.
fn read_next_slot<D: Disk>(
    store: &mut Store,
    disk: &mut D,
    container: &Container,
    snapshots: &Snapshots,
    map: &mut VolMap,
    span: u32,
    slot: MapSlot,
) -> Result<(), BlockFault>
    requires stands { StandsOn (D.shown disk.old) store.old.pairs }
    requires spans { IsReadable container.now.map span }
    requires away { IsAway container.now }
    requires map { map.old.span ≡ span }
    requires slot { IsSnapSlot slot }
    requires used { AreUsedTo snapshots.now slot map.old }
    ensures map { OnOk result (map.new.span ≡ span) }
    ensures used { OnOk result (AreUsedTo snapshots.now (slot + 1) map.new) }
    ensures read { IsTrue (D.shown disk.old).tells → IsOpenedOn (D.shown disk.old).reads container.now.map → HaveRead (D.shown disk.old).reads container.now.map span slot map.old
        → OnOk result (HaveRead (D.shown disk.old).reads container.now.map span (slot + 1) map.new) }
    ensures fault { IsTrue (D.shown disk.old).tells → IsOpenedOn (D.shown disk.old).reads container.now.map → IfErr result (IsBadMap (D.shown disk.old).reads container.now.map span snapshots.now) }
    ensures only_reads { OnlyReads (D.shown disk.old) (D.shown disk.new) }
    ensures stands { StandsOn (D.shown disk.new) store.new.pairs }
    ensures cause { HasBlockCause (D.shown disk.old).faults (D.shown disk.new).faults result }
{
    if !snapshots.has_slot(slot) {
        return Ok(());
    }
    read_slot(store, disk, container, map, span, slot)
}

/// Reads the maps of a volume with this span: that of the active table, and that of each of its snapshots.
fn read_map<D: Disk>(
    alloc: Global,
    store: &mut Store,
    disk: &mut D,
    container: &Container,
    snapshots: &Snapshots,
    span: u32,
) -> Result<VolMap, BlockFault>
    requires stands { StandsOn (D.shown disk.old) store.old.pairs }
    requires span { span ≤ greatest_span }
    requires least { 1 ≤ span }
    requires entries { length container.now.map.entries ≡ entry_count span }
    requires away { IsAway container.now }
    ensures map { IfOk result (λ map. map.span ≡ span) }
    ensures used { IfOk result (AreUsedTo snapshots.now stored_count) }
    ensures read { IsTrue (D.shown disk.old).tells → IsOpenedOn (D.shown disk.old).reads container.now.map → IfOk result (HaveRead (D.shown disk.old).reads container.now.map span stored_count) }
    ensures fault { IsTrue (D.shown disk.old).tells → IsOpenedOn (D.shown disk.old).reads container.now.map → IfErr result (IsBadMap (D.shown disk.old).reads container.now.map span snapshots.now) }
    ensures only_reads { OnlyReads (D.shown disk.old) (D.shown disk.new) }
    ensures stands { StandsOn (D.shown disk.new) store.new.pairs }
    ensures cause { HasBlockCause (D.shown disk.old).faults (D.shown disk.new).faults result }
{
    let mut map = VolMap::new(alloc, span)?;
    read_slot(store, disk, container, &mut map, span, 0)?;
    for slot in 1..BASE_SLOT {
        read_next_slot(store, disk, container, snapshots, &mut map, span, slot)?;
    }
    Ok(map)
}

/// Reads the container that a label names.
fn read_container<D: Disk>(
    alloc: Global,
    store: &mut Store,
    disk: &mut D,
    label: &Label,
) -> Result<Container, BlockFault>
    requires stands { StandsOn (D.shown disk.old) store.old.pairs }
    requires range { IsLabel label.now }
    ensures opened { IsTrue (D.shown disk.old).tells → IfOk result (λ container. IsOpened (D.shown disk.old).reads label.entry.now.container label.entry.now.height container.map) }
    ensures clean { IsTrue (D.shown disk.old).tells → IsCleanTree (D.shown disk.old).reads label.entry.now.container label.entry.now.height (entry_count label.entry.now.span)
        → IfOk result (IsCleanOn (D.shown disk.old).reads) }
    ensures size { IfOk result (λ container. length container.map.entries ≡ entry_count label.entry.now.span) }
    ensures away { IfOk result IsAway }
    ensures valid { IfOk result (λ container. IsMapped container.map) }
    ensures fault { IsTrue (D.shown disk.old).tells → IfErr result (IsFault (D.shown disk.old).reads label.entry.now.container label.entry.now.height (entry_count label.entry.now.span)) }
    ensures only_reads { OnlyReads (D.shown disk.old) (D.shown disk.new) }
    ensures stands { StandsOn (D.shown disk.new) store.new.pairs }
    ensures cause { HasBlockCause (D.shown disk.old).faults (D.shown disk.new).faults result }
{
    Container::at(
        alloc,
        store,
        disk,
        entry_count(label.span),
        label.height,
        label.container,
    )
}

/// Makes the slot of the base used where the label says one. It has no number yet: the maps of its parent say those, once they were read.
#[tactic(auto, using(crate::proofs::SlotReads::holds_none, crate::proofs::SlotReads::holds_where))]
fn hold_base(map: &mut VolMap, label: &Label) -> Result<(), AllocError>
    requires least { 1 ≤ map.old.span }
    requires free { is_some (slot_at map.old slot_of_base) ≡ false }
    ensures { OnOk result (HoldsBase (footing_of label.entry.now) map.old map.new) }
{
    if label.parent == 0 {
        return Ok(());
    }
    take_zeros(map, BASE_SLOT, 0)
}

/// The slot of the volume that a volume stands on; `None` without a base.
fn parent_of(state: &VolumeState) -> Option<u8>
    requires { IfSome state.now.base (λ base. base.parent < slot_count) }
    ensures value { result ≡ parent_in (Some state.entry.now) }
    ensures inside { IfSome result (λ parent. parent < slot_count) }
{
    match state.base {
        None => None,
        Some(base) => Some(base.parent),
    }
}

/// Reads the volume of a slot below 64, if it has one, and puts its container into that slot, with the slot
/// of its parent. Its ledger isn't counted yet.
#[tactic(auto, using(fv_disk::proofs::Resting::reads_then))]
fn load_volume<D: Disk>(
    alloc: Global,
    store: &mut Store,
    disk: &mut D,
    found: &Found,
    containers: &mut Containers,
    slot: u8,
) -> Result<Option<VolumeState>, BlockFault>
    requires stands { StandsOn (D.shown disk.old) store.old.pairs }
    requires slot { slot < slot_count }
    requires few { length containers.old.containers ≡ slot_count }
    requires parent { parent_at containers.old slot ≡ None }
    ensures leaves { KeepsOthers slot containers.old containers.new }
    ensures loaded { IsTrue (D.shown disk.old).tells → paged_at containers.old slot ≡ None
        → IfOk result (λ state. IsLoaded (D.shown disk.old).reads found.now slot state (paged_at containers.new slot)) }
    ensures filled { IfOk result (IsFilled slot containers.new) }
    ensures fault { IsTrue (D.shown disk.old).tells → IfErr result (IsLoadFault (D.shown disk.old).reads found.now) }
    ensures only_reads { OnlyReads (D.shown disk.old) (D.shown disk.new) }
    ensures stands { StandsOn (D.shown disk.new) store.new.pairs }
    ensures cause { HasBlockCause (D.shown disk.old).faults (D.shown disk.new).faults result }
{
    let place = found.root.labels[slot as usize];
    if place == 0 {
        return Ok(None);
    }
    let label = read_label(store, disk, place)?;
    let container = read_container(alloc, store, disk, &label)?;
    let snapshots = Snapshots::of_records(alloc, &label.snapshots)?;
    let mut map = read_map(alloc, store, disk, &container, &snapshots, label.span)?;
    hold_base(&mut map, &label)?;
    let state = VolumeState::of_label(slot, place, &label, snapshots, map);
    containers.put(slot, container, parent_of(&state));
    Ok(Some(state))
}

/// Reads the volume of the next slot.
fn load_next<D: Disk>(
    alloc: Global,
    store: &mut Store,
    disk: &mut D,
    found: &Found,
    containers: &mut Containers,
    states: &mut Vec<Option<VolumeState>>,
    slot: u8,
) -> Result<(), BlockFault>
    requires stands { StandsOn (D.shown disk.old) store.old.pairs }
    requires slot { slot < slot_count }
    requires read { ReadTo slot states.old.items containers.old }
    ensures read { OnOk result (ReadTo (slot + 1) states.new.items containers.new) }
    ensures loaded { IsTrue (D.shown disk.old).tells → LoadedTo (D.shown disk.old).reads found.now slot states.old.items containers.old
        → OnOk result (LoadedTo (D.shown disk.old).reads found.now (slot + 1) states.new.items containers.new) }
    ensures fault { IsTrue (D.shown disk.old).tells → IfErr result (IsLoadFault (D.shown disk.old).reads found.now) }
    ensures only_reads { OnlyReads (D.shown disk.old) (D.shown disk.new) }
    ensures stands { StandsOn (D.shown disk.new) store.new.pairs }
    ensures cause { HasBlockCause (D.shown disk.old).faults (D.shown disk.new).faults result }
{
    let state = load_volume(alloc, store, disk, found, containers, slot)?;
    add(states, state)?;
    Ok(())
}

/// Adds a slot; where no memory is found the slots stay.
fn add(states: &mut Vec<Option<VolumeState>>, state: Option<VolumeState>) -> Result<(), AllocError>
    ensures added { OnOk result (states.new.items ≡ states.old.items ++ state ∷ []) }
    ensures failed { OnErr result (states.new.items ≡ states.old.items) }
{
    match states.push(state) {
        Ok(()) => Ok(()),
        Err(fault) => Err(AllocError::from(fault)),
    }
}

/// Reads the volumes of all slots.
fn load_volumes<D: Disk>(
    alloc: Global,
    store: &mut Store,
    disk: &mut D,
    found: &Found,
    containers: &mut Containers,
    states: &mut Vec<Option<VolumeState>>,
) -> Result<(), BlockFault>
    requires stands { StandsOn (D.shown disk.old) store.old.pairs }
    requires read { ReadTo 0 states.old.items containers.old }
    ensures read { OnOk result (ReadTo slot_count states.new.items containers.new) }
    ensures loaded { IsTrue (D.shown disk.old).tells → OnOk result (LoadedTo (D.shown disk.old).reads found.now slot_count states.new.items containers.new) }
    ensures fault { IsTrue (D.shown disk.old).tells → IfErr result (IsLoadFault (D.shown disk.old).reads found.now) }
    ensures only_reads { OnlyReads (D.shown disk.old) (D.shown disk.new) }
    ensures stands { StandsOn (D.shown disk.new) store.new.pairs }
    ensures cause { HasBlockCause (D.shown disk.old).faults (D.shown disk.new).faults result }
{
    for slot in 0..64 {
        load_next(alloc, store, disk, found, containers, states, slot)?;
    }
    Ok(())
}

/// Counts the ledger of the volume of a slot, if there is one.
fn count_volume(state: &mut Option<VolumeState>)
    requires { IfSome state.old IsCountable }
    ensures { Counts state.old state.new }
{
    if let Some(state) = state {
        state.recount();
    }
}

/// Counts the ledgers of the volumes of all slots.
fn count_volumes(states: &mut Vec<Option<VolumeState>>)
    requires long { length states.old.items ≡ slot_count }
    requires each { (s : ℕ) → IfSome (state_at states.old.items s) IsCountable }
    ensures { AreCountedTo slot_count states.old.items states.new.items }
{
    for slot in 0..64 {
        count_volume(&mut states[slot]);
    }
}

/// Reads the volumes of all slots, and puts their containers into the slots of `containers`, which has none. Once all are read each learns
/// what it stands on, whichever slot is the lower one, and then the ledgers are counted: what isn't charged in a clone is said by the map of
/// its parent's snapshot.
pub(crate) fn load_states<D: Disk>(
    alloc: Global,
    store: &mut Store,
    disk: &mut D,
    found: &Found,
    containers: &mut Containers,
) -> Result<Vec<Option<VolumeState>>, BlockFault>
    requires stands { StandsOn (D.shown disk.old) store.old.pairs }
    requires none { containers.old ≡ no_containers }
    ensures kept { IfOk result (λ states. KeptTo slot_count states.items containers.new) }
    ensures bases { IfOk result (λ states. KnowBases states.items) }
    ensures loaded { IsTrue (D.shown disk.old).tells → IfOk result (λ states. LoadedTo (D.shown disk.old).reads found.now slot_count states.items containers.new) }
    ensures fault { IsTrue (D.shown disk.old).tells → IfErr result (IsLoadFault (D.shown disk.old).reads found.now) }
    ensures only_reads { OnlyReads (D.shown disk.old) (D.shown disk.new) }
    ensures stands { StandsOn (D.shown disk.new) store.new.pairs }
    ensures cause { HasBlockCause (D.shown disk.old).faults (D.shown disk.new).faults result }
{
    let mut states = Vec::new(alloc);
    load_volumes(alloc, store, disk, found, containers, &mut states)?;
    learn_bases(&mut states)?;
    count_volumes(&mut states);
    Ok(states)
}
