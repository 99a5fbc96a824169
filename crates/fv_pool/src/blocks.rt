//! The blocks of one volume, over what a session lends.

ghost use Rattle.std.specs.Prelude.{◌≡◌, ◌<◌, ◌≤◌, ◌+◌, ◌*◌, ◌/◌, None, Some, false, true, length, slice_set, IfOk, IfErr, IfSome, OnOk, OnErr, option_copied};
ghost use Rattle.fv_aggmap.specs.Space.{blocks_of, free_blocks};
ghost use Rattle.fv_bits.specs.Members.{is_member};
ghost use Rattle.fv_codec.specs.Blocks.{last_place};
ghost use Rattle.fv_codec.specs.Forms.{has_form};
ghost use Rattle.fv_container.specs.Chains.{container_at, paged_at, slot_count};
ghost use Rattle.fv_container.specs.Mapped.{IsEntry, IsHeld, entry_under};
ghost use Rattle.fv_container.specs.Paged.{is_here, is_sure};
ghost use Rattle.fv_disk.specs.DiskCalls.{OnlyReads};
ghost use Rattle.fv_disk.specs.Faults.{HasBlockCause};
ghost use Rattle.fv_disk.specs.Shown.{Rose};
ghost use Rattle.fv_disk.specs.declared.fault.BlockFault.TheVariants.{Damaged};
ghost use Rattle.fv_image.specs.Layout.{root_place};
ghost use Rattle.fv_store.specs.Held.{StandsOn};
ghost use Rattle.fv_tree.specs.Sources.{IsKind};
ghost use Rattle.fv_volmap.specs.Slots.{IsVolume, active_of, has, taken_in, with_slot};
ghost use Rattle.fv_pool.specs.BlocksOver.{HoldsMore, IsEntryFault, IsHoldFault, IsLooseFault, IsPrepared, KeepsMaps, LacksNumbers, LacksPlace, LeavesPool, LeavesRoom, LoadsPool, PlacesBlock, PutsEntry, Takes, TellsEntries, IsRightPlace, block_of, entries_in, given_back, held_entry, place_of, place_read, place_told, steps_by};

use crate::known::known_maps;
use crate::pool::Pool;
use fv_aggmap::AggMap;
use fv_bits::BitMap;
use fv_codec::{Form, Pointer};
use fv_container::{Containers, Entry, Steps};
use fv_disk::{Block, BlockFault, Disk};
use fv_root::root_place;
use fv_store::Store;
use fv_tree::Placed;
use fv_volmap::{BASE_SLOT, VolMap};
use std::sync::ledger::Ledger;

/// The greatest VVBN.
pub(crate) const LAST: u64 = 1_048_575;

/// The volume whose blocks are meant.
#[derive(Clone, Copy, Debug, PartialEq, Eq)]
pub struct Home {
    /// Its slot, below 64.
    pub slot: u8,
    /// The PVBN of its label, 0 where it has none yet: damage that no block shows is told with it.
    pub label: u32,
}

/// Reads the block of a pointer, the kept one or what the store reads, and answers its PVBN. A pointer that tells a
/// place is read there: no entry and no map is asked, and it costs no step. Where the entry of its VVBN says another
/// place, what is given is whatever lies at the told one. A pointer with a PVBN of 0 is read where the entry of its VVBN
/// says, which takes a look-up along the chain, one step. At `Err` the content of `into` is open.
///
/// # Errors
///
/// `DiskFault` only where a read failed in this call, and `Damaged` only where the VVBN isn't held: the place of the
/// volume's label, 1 and 0; or where a leaf of a container doesn't stand where it has to. `Memory` never comes. Costs at most
/// one block, and a leaf of a container for each volume of the chain where the pointer tells no place.
#[tactic(auto, using(crate::proofs::Lent::right_block))]
pub fn read_pointed<D: Disk, L: Ledger>(
    pool: &mut Pool,
    disk: &mut D,
    map: &VolMap,
    steps: &mut Steps<L>,
    home: &Home,
    pointer: &Pointer,
    into: &mut Block,
) -> Result<u32, BlockFault>
    requires slot { home.now.slot < slot_count }
    requires stands { StandsOn (D.shown disk.old) pool.old.store.pairs }
    ensures block { TellsEntries (D.shown disk.old) pool.old.containers → IsRightPlace (held_entry map.now pool.old.containers home.now.slot pointer.now.vvbn) pointer.now.pvbn
        → OnOk result (block_of pool.old.kept (D.shown disk.old).reads (held_entry map.now pool.old.containers home.now.slot pointer.now.vvbn) ≡ Some into.new) }
    ensures place { TellsEntries (D.shown disk.old) pool.old.containers → IfOk result (λ pvbn. place_read (held_entry map.now pool.old.containers home.now.slot pointer.now.vvbn) pointer.now.pvbn ≡ Some pvbn) }
    ensures range { IfOk result (λ pvbn. pvbn ≤ last_place) }
    ensures step { OnOk result (steps.new ≡ steps.old + steps_by pointer.now.pvbn) }
    ensures later { steps.old ≤ steps.new }
    ensures loose { IfErr result (IsLooseFault (D.shown disk.old) pool.old.containers (held_entry map.now pool.old.containers home.now.slot pointer.now.vvbn) home.now.label) }
    ensures leaves { LeavesPool pool.old pool.new }
    ensures stands { StandsOn (D.shown disk.new) pool.new.store.pairs }
    ensures only_reads { OnlyReads (D.shown disk.old) (D.shown disk.new) }
    ensures cause { HasBlockCause (D.shown disk.old).faults (D.shown disk.new).faults result }
{
    let Some(pvbn) = find_place(pool, disk, map, steps, home.slot, pointer)? else {
        return Err(BlockFault::Damaged {
            at: u64::from(home.label),
            want: 1,
            found: 0,
        });
    };
    pool.read(disk, pvbn, into)?;
    Ok(pvbn)
}

/// As `read_pointed`, and tells whether the block has a form: whether it spells a node, or an inode block. At `Err` also
/// `has` is open.
///
/// # Errors
///
/// As `read_pointed`.
#[tactic(auto, using(crate::proofs::Lent::right_block))]
pub fn read_pointed_as<D: Disk, L: Ledger>(
    pool: &mut Pool,
    disk: &mut D,
    map: &VolMap,
    steps: &mut Steps<L>,
    home: &Home,
    pointer: &Pointer,
    form: Form,
    into: &mut Block,
    has: &mut bool,
) -> Result<u32, BlockFault>
    requires slot { home.now.slot < slot_count }
    requires stands { StandsOn (D.shown disk.old) pool.old.store.pairs }
    ensures form { OnOk result (has.new ≡ has_form form into.new) }
    ensures block { TellsEntries (D.shown disk.old) pool.old.containers → IsRightPlace (held_entry map.now pool.old.containers home.now.slot pointer.now.vvbn) pointer.now.pvbn
        → OnOk result (block_of pool.old.kept (D.shown disk.old).reads (held_entry map.now pool.old.containers home.now.slot pointer.now.vvbn) ≡ Some into.new) }
    ensures place { TellsEntries (D.shown disk.old) pool.old.containers → IfOk result (λ pvbn. place_read (held_entry map.now pool.old.containers home.now.slot pointer.now.vvbn) pointer.now.pvbn ≡ Some pvbn) }
    ensures range { IfOk result (λ pvbn. pvbn ≤ last_place) }
    ensures step { OnOk result (steps.new ≡ steps.old + steps_by pointer.now.pvbn) }
    ensures later { steps.old ≤ steps.new }
    ensures loose { IfErr result (IsLooseFault (D.shown disk.old) pool.old.containers (held_entry map.now pool.old.containers home.now.slot pointer.now.vvbn) home.now.label) }
    ensures leaves { LeavesPool pool.old pool.new }
    ensures stands { StandsOn (D.shown disk.new) pool.new.store.pairs }
    ensures only_reads { OnlyReads (D.shown disk.old) (D.shown disk.new) }
    ensures cause { HasBlockCause (D.shown disk.old).faults (D.shown disk.new).faults result }
{
    let Some(pvbn) = find_place(pool, disk, map, steps, home.slot, pointer)? else {
        return Err(BlockFault::Damaged {
            at: u64::from(home.label),
            want: 1,
            found: 0,
        });
    };
    pool.read_as(disk, pvbn, form, into, has)?;
    Ok(pvbn)
}

/// Places a block of a kind under a VVBN that no slot of the volume's maps has, the base's among them, in a block
/// that neither root holds: both are taken, the entry of the VVBN is set, and the block is kept until it is written.
/// Where that VVBN had an entry still, the block of that is given back after the next commit.
///
/// # Errors
///
/// `Damaged` only where each VVBN is taken, at the place of the volume's label, or where no block is free, at the
/// place of the root, where it wants 1 and finds 0; or where the leaf of the container that has the VVBN doesn't stand where it has
/// to. `DiskFault` only where a read failed in this call. `Memory` where there is no memory to keep the block or the leaf. Nothing
/// but what is in memory of leaves changes then.
///
/// Costs a step for each word of 64 numbers or blocks that is passed, and a read where the leaf isn't in memory.
pub fn place_block<D: Disk>(
    pool: &mut Pool,
    disk: &mut D,
    map: &mut VolMap,
    home: &Home,
    kind: u8,
    block: &Block,
) -> Result<Placed, BlockFault>
    requires slot { home.now.slot < slot_count }
    requires kind { IsKind kind }
    requires few { map.old.span ≤ last_place + 1 }
    requires room { map.old.span ≤ length (entries_in (container_at pool.old.containers home.now.slot)) }
    requires stands { StandsOn (D.shown disk.old) pool.old.store.pairs }
    ensures placed { IfOk result (PlacesBlock (D.shown disk.old) pool.old map.old home.now.slot kind block.now pool.new map.new) }
    ensures holds { IfOk result (HoldsMore (D.shown disk.old) pool.old map.old home.now.slot kind block.now pool.new map.new) }
    ensures vvbn { IfOk result (λ placed. placed.vvbn ≤ last_place) }
    ensures failed { OnErr result (LoadsPool (D.shown disk.old) pool.old pool.new) }
    ensures failed_map { OnErr result (map.new ≡ map.old) }
    ensures fault { IfErr result (LacksPlace (D.shown disk.old) pool.old.containers pool.old.map map.old (root_place pool.old.found.slot) home.now.label) }
    ensures leaves { IfOk result (λ placed. LeavesRoom pool.old.map map.old pool.new.map map.new) }
    ensures valid { IsVolume map.old }
    ensures stands { StandsOn (D.shown disk.new) pool.new.store.pairs }
    ensures only_reads { OnlyReads (D.shown disk.old) (D.shown disk.new) }
    ensures cause { HasBlockCause (D.shown disk.old).faults (D.shown disk.new).faults result }
{
    let root = root_place(pool.found.slot);
    let placed = take_numbers(&mut pool.map, map, root, home.label)?;
    if let Err(fault) = prepare_place(pool, disk, home.slot, &placed, block) {
        return_numbers(&mut pool.map, map, &placed);
        return Err(fault);
    }
    let entry = Entry {
        pvbn: placed.pvbn,
        kind,
    };
    let before = set_entry(&mut pool.containers, home.slot, placed.vvbn, entry);
    give_back(&mut pool.map, before);
    Ok(placed)
}

/// Holds the leaf of a VVBN of a slot in memory, and keeps a block. Nothing can fail behind that.
pub(crate) fn prepare_place<D: Disk>(
    pool: &mut Pool,
    disk: &mut D,
    slot: u8,
    placed: &Placed,
    block: &Block,
) -> Result<(), BlockFault>
    requires slot { slot < slot_count }
    requires within { placed.now.vvbn < length (entries_in (container_at pool.old.containers slot)) }
    requires stands { StandsOn (D.shown disk.old) pool.old.store.pairs }
    ensures ready { OnOk result (IsPrepared (D.shown disk.old) pool.old slot placed.now block.now pool.new) }
    ensures failed { OnErr result (LoadsPool (D.shown disk.old) pool.old pool.new) }
    ensures fault { IfErr result (IsHoldFault (D.shown disk.old) pool.old.containers) }
    ensures stands { StandsOn (D.shown disk.new) pool.new.store.pairs }
    ensures only_reads { OnlyReads (D.shown disk.old) (D.shown disk.new) }
    ensures cause { HasBlockCause (D.shown disk.old).faults (D.shown disk.new).faults result }
{
    load_leaf(
        &mut pool.containers,
        &mut pool.store,
        disk,
        slot,
        placed.vvbn / 256,
    )?;
    pool.keep(placed.pvbn, block)?;
    Ok(())
}

/// Holds the leaf of a region of a slot in memory.
fn load_leaf<D: Disk>(
    containers: &mut Containers,
    store: &mut Store,
    disk: &mut D,
    slot: u8,
    region: u32,
) -> Result<(), BlockFault>
    requires slot { slot < slot_count }
    requires within { 256 * region < length (entries_in (container_at containers.old slot)) }
    requires stands { StandsOn (D.shown disk.old) store.old.pairs }
    ensures maps { KeepsMaps (D.shown disk.old) containers.old containers.new }
    ensures here { OnOk result (IfSome (paged_at containers.new slot) (λ paged. is_here paged region ≡ true)) }
    ensures fault { IfErr result (IsHoldFault (D.shown disk.old) containers.old) }
    ensures stands { StandsOn (D.shown disk.new) store.new.pairs }
    ensures only_reads { OnlyReads (D.shown disk.old) (D.shown disk.new) }
    ensures cause { HasBlockCause (D.shown disk.old).faults (D.shown disk.new).faults result }
{
    let Some(container) = containers.get_mut(slot) else {
        return Ok(());
    };
    container.load(store, disk, region)
}

/// Takes a VVBN and a free block.
fn take_numbers(
    space: &mut AggMap,
    map: &mut VolMap,
    root: u64,
    label: u32,
) -> Result<Placed, BlockFault>
    ensures taken { IfOk result (λ placed. Takes space.old map.old placed space.new map.new) }
    ensures within { IfOk result (λ placed. placed.pvbn < blocks_of space.new) }
    ensures failed { OnErr result (space.new ≡ space.old) }
    ensures failed_map { OnErr result (map.new ≡ map.old) }
    ensures fault { IfErr result (LacksNumbers space.old map.old root label) }
    ensures leaves { IfOk result (λ placed. LeavesRoom space.old map.old space.new map.new) }
    ensures valid { IsVolume map.old }
{
    known_maps(map);
    let Some(vvbn) = map.allocate() else {
        return Err(lacking(u64::from(label)));
    };
    let Some(pvbn) = space.take_free() else {
        map.release(vvbn);
        return Err(lacking(root));
    };
    Ok(Placed { vvbn, pvbn })
}

/// One number was wanted, and none is left.
pub(crate) fn lacking(at: u64) -> BlockFault
    ensures { result ≡ Damaged at 1 0 }
{
    BlockFault::Damaged {
        at,
        want: 1,
        found: 0,
    }
}

/// Undoes `take_numbers`.
fn return_numbers(space: &mut AggMap, map: &mut VolMap, placed: &Placed)
    requires { placed.now.pvbn < blocks_of space.old }
    ensures space { space.new ≡ record space.old { next = slice_set space.old.next placed.now.pvbn false } }
    ensures map { map.new ≡ with_slot map.old 0 (Some (slice_set (active_of map.old) placed.now.vvbn false)) }
{
    space.release_after_commit(placed.pvbn);
    map.release(placed.vvbn);
}

/// Sets the entry of a VVBN of a slot whose leaf is in memory, and answers the one that stood there.
pub(crate) fn set_entry(
    containers: &mut Containers,
    slot: u8,
    vvbn: u32,
    entry: Entry,
) -> Option<Entry>
    requires slot { slot < slot_count }
    requires within { vvbn < length (entries_in (container_at containers.old slot)) }
    requires here { IfSome (paged_at containers.old slot) (λ paged. is_here paged (vvbn / 256) ≡ true) }
    requires entry { IsEntry entry }
    ensures before { IfSome (paged_at containers.old slot) (λ paged. is_sure paged (vvbn / 256) ≡ true → result ≡ entry_under paged.map vvbn) }
    ensures set { PutsEntry containers.old slot vvbn entry containers.new }
{
    let Some(container) = containers.get_mut(slot) else {
        return None;
    };
    let before = container.entry_at(vvbn);
    container.place(vvbn, entry);
    before
}

/// Says that the next root won't hold the block of an entry.
#[tactic(auto, using(fv_aggmap::proofs::Room::no_fewer))]
pub(crate) fn give_back(space: &mut AggMap, entry: Option<Entry>)
    ensures given { space.new ≡ given_back space.old entry }
    ensures no_fewer { free_blocks space.old ≤ free_blocks space.new }
{
    if let Some(entry) = entry
        && entry.pvbn < space.blocks()
    {
        space.release_after_commit(entry.pvbn);
    }
}

/// Takes a number out of the active map. One that isn't there changes nothing there and counts as a stray.
pub(crate) fn drop_number(map: &mut VolMap, strays: &mut u64, vvbn: u32)
    ensures released { map.new ≡ with_slot map.old 0 (Some (slice_set (active_of map.old) vvbn false)) }
    ensures named { is_member (active_of map.old) vvbn ≡ true → strays.new ≡ strays.old }
    ensures stray { is_member (active_of map.old) vvbn ≡ false → Rose strays.old strays.new }
    ensures valid { IsVolume map.old }
{
    if !has_member(map.active(), vvbn) {
        *strays = strays.saturating_add(1);
    }
    map.release(vvbn);
}

/// Where the block of a pointer lies: at the place that it tells, or else at that of its VVBN's entry; `None` exactly where it tells
/// none and the VVBN isn't held.
fn find_place<D: Disk, L: Ledger>(
    pool: &mut Pool,
    disk: &mut D,
    map: &VolMap,
    steps: &mut Steps<L>,
    slot: u8,
    pointer: &Pointer,
) -> Result<Option<u32>, BlockFault>
    requires slot { slot < slot_count }
    requires stands { StandsOn (D.shown disk.old) pool.old.store.pairs }
    ensures place { TellsEntries (D.shown disk.old) pool.old.containers → IfOk result (λ place. place ≡ place_read (held_entry map.now pool.old.containers slot pointer.now.vvbn) pointer.now.pvbn) }
    ensures range { IfOk result (λ place. IfSome place (λ pvbn. pvbn ≤ last_place)) }
    ensures step { IfOk result (λ place. IfSome place (λ pvbn. steps.new ≡ steps.old + steps_by pointer.now.pvbn)) }
    ensures later { steps.old ≤ steps.new }
    ensures fault { IfErr result (IsEntryFault (D.shown disk.old) pool.old.containers) }
    ensures leaves { LeavesPool pool.old pool.new }
    ensures stands { StandsOn (D.shown disk.new) pool.new.store.pairs }
    ensures only_reads { OnlyReads (D.shown disk.old) (D.shown disk.new) }
    ensures cause { HasBlockCause (D.shown disk.old).faults (D.shown disk.new).faults result }
{
    let told = told_place(pointer);
    if told.is_some() {
        return Ok(told);
    }
    let entry = find_entry(pool, disk, map, steps, slot, pointer)?;
    Ok(place_of(entry))
}

/// The place that a pointer tells; `None` where its PVBN is 0 or past all places.
#[tactic(auto, unfolding(crate::specs::BlocksOver::place_told))]
fn told_place(pointer: &Pointer) -> Option<u32>
    ensures told { result ≡ place_told pointer.now.pvbn }
    ensures range { IfSome result (λ pvbn. pvbn ≤ last_place) }
{
    if pointer.pvbn == 0 || pointer.pvbn > LAST {
        None
    } else {
        Some(pointer.pvbn as u32)
    }
}

/// The place of an entry.
fn place_of(entry: Option<Entry>) -> Option<u32>
    requires { IfSome entry IsHeld }
    ensures place { result ≡ place_of entry }
    ensures range { IfSome result (λ pvbn. pvbn ≤ last_place) }
{
    match entry {
        Some(entry) => Some(entry.pvbn),
        None => None,
    }
}

/// The entry of the VVBN of a pointer; `None` exactly where it isn't held. It takes a step for a pointer with a PVBN of 0; another one
/// comes here only with a PVBN that is no place.
#[tactic(auto, unfolding(crate::specs::BlocksOver::held_entry), using(crate::proofs::Lent::no_step, crate::proofs::Lent::one_step, crate::proofs::Lent::of_some, crate::proofs::Lent::of_found, crate::proofs::Setting::entry_fault))]
fn find_entry<D: Disk, L: Ledger>(
    pool: &mut Pool,
    disk: &mut D,
    map: &VolMap,
    steps: &mut Steps<L>,
    slot: u8,
    pointer: &Pointer,
) -> Result<Option<Entry>, BlockFault>
    requires slot { slot < slot_count }
    requires stands { StandsOn (D.shown disk.old) pool.old.store.pairs }
    ensures entry { TellsEntries (D.shown disk.old) pool.old.containers → IfOk result (λ entry. entry ≡ held_entry map.now pool.old.containers slot pointer.now.vvbn) }
    ensures held { IfOk result (λ entry. IfSome entry IsHeld) }
    ensures step { IfOk result (λ entry. IfSome entry (λ e. steps.new ≡ steps.old + steps_by pointer.now.pvbn)) }
    ensures later { steps.old ≤ steps.new }
    ensures fault { IfErr result (IsEntryFault (D.shown disk.old) pool.old.containers) }
    ensures leaves { LeavesPool pool.old pool.new }
    ensures stands { StandsOn (D.shown disk.new) pool.new.store.pairs }
    ensures only_reads { OnlyReads (D.shown disk.old) (D.shown disk.new) }
    ensures cause { HasBlockCause (D.shown disk.old).faults (D.shown disk.new).faults result }
{
    if pointer.vvbn > LAST || !is_taken(map, pointer.vvbn as u32) {
        return Ok(None);
    }
    let vvbn = pointer.vvbn as u32;
    if pointer.pvbn != 0 {
        return pool
            .containers
            .first_entry(&mut pool.store, disk, slot, vvbn);
    }
    pool.containers
        .look_up_chain(&mut pool.store, disk, slot, vvbn, steps)
}

/// Whether a slot of the maps has a VVBN, the base's among them. Costs a step for each slot.
#[tactic(auto, using(crate::proofs::Lent::taken_anywhere))]
pub(crate) fn is_taken(map: &VolMap, vvbn: u32) -> bool
    ensures { result ≡ taken_in map.now.slots vvbn }
{
    known_maps(map);
    map.held(vvbn) || has_number(map.snapshot(BASE_SLOT), vvbn)
}

/// Whether the slot has a VVBN.
fn has_number(map: Option<&BitMap>, vvbn: u32) -> bool
    ensures { result ≡ has vvbn (option_copied map.entry) }
{
    match map {
        Some(map) => has_member(map, vvbn),
        None => false,
    }
}

/// Whether the map has a VVBN; none from its length on.
fn has_member(map: &BitMap, vvbn: u32) -> bool
    ensures { result ≡ is_member map.now vvbn }
{
    vvbn < map.len() && map.get(vvbn)
}
