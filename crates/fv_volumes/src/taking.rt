//! Taking blocks, and writing the blocks of maps to them.

ghost use Rattle.std.specs.Prelude.{◌≡◌, ◌<◌, ◌≤◌, ◌*◌, ◌/◌, ℕ, true, false, get_or, IsTrue, OnOk, length};
ghost use Rattle.fv_codec.specs.Blocks.{last_place};
ghost use Rattle.fv_disk.specs.Sparing.{Spares};
ghost use Rattle.fv_bits.specs.Members.{IsBlockOf};
ghost use Rattle.fv_image.specs.Containers.{level_width};
ghost use Rattle.fv_image.specs.Views.{entry_count};
ghost use Rattle.fv_model.specs.Numbers.{greatest_span};
ghost use Rattle.fv_root.specs.Formatted.{IsSize};
ghost use Rattle.fv_store.specs.Held.{StandsOn};
ghost use Rattle.fv_aggmap.specs.Space.{IsFree, blocks_of, free_blocks};
ghost use Rattle.fv_container.specs.Clean.{StaysClean};
ghost use Rattle.fv_container.specs.Spelled.{is_at};
ghost use Rattle.fv_volmap.specs.Slots.{map_or_empty, slot_at, slot_count};
ghost use Rattle.fv_volume.specs.Stored.{is_map_written, map_index, map_slot, slot_map};
ghost use Rattle.fv_volume.specs.Writing.{HasDrawn, HasEntries, HasMapLeaves, HasMaps, IsOther, IsTaken, StandBits, has_maps_at, map_writes};

use fv_aggmap::AggMap;
use fv_container::{Container, Entry};
use fv_disk::{Block, Disk, Failed, ZERO};
use fv_model::{map_index, map_slot};
use fv_store::Store;
use fv_volmap::{MapSlot, VolMap};
use fv_volume::{VolumeState, entry_count};

/// The kind of a block of a map.
const MAP_BLOCK: u8 = 8;

/// Takes a free block; there is one.
#[tactic(auto, using(crate::proofs::Drawing::some_there, crate::proofs::Drawing::drawn_taken))]
pub(crate) fn take_block(map: &mut AggMap) -> u32
    requires { 0 < free_blocks map.old }
    ensures free { IsFree map.old result }
    ensures drawn { HasDrawn map.old (λ b. is_at b result) 1 map.new }
    ensures least { 1 ≤ result }
    ensures greatest { result ≤ last_place }
    ensures size { IsSize (blocks_of map.old) }
{
    map.take_free().unwrap()
}

/// Block `index` of the map of a slot, all zero for a free slot.
fn map_block(maps: &VolMap, slot: MapSlot, index: u32, into: &mut Block)
    requires slot { slot < slot_count }
    requires within { 32768 * index < maps.now.span }
    ensures { IsBlockOf (map_or_empty maps.now.span (slot_at maps.now slot)) index into.new }
{
    // What the maps are known to be is how long each of them is.
    let _ = maps.active();
    match maps.snapshot(slot) {
        Some(map) => map.to_block(index, into),
        None => *into = ZERO,
    }
}

/// Whether a consistency point writes the block of a map under a VVBN behind the span.
pub(crate) fn is_map_written(state: &VolumeState, vvbn: u32) -> bool
    requires past { state.now.span ≤ vvbn }
    requires within { vvbn < entry_count state.now.span }
    ensures { result ≡ is_map_written state.entry.now vvbn }
{
    state.is_rewritten(map_slot(state.span, vvbn))
}

/// Marks in a plan the regions whose leaves `write_volume` needs in memory: those with the entries of blocks of maps that a consistency
/// point writes. A mark that is there stays. The plan has a mark for each region of the volume's container; marks behind them stay. Costs
/// a step for each VVBN behind the span.
pub fn mark_maps(state: &VolumeState, plan: &mut [bool])
    requires span { state.now.span ≤ greatest_span }
    requires long { level_width (entry_count state.now.span) 0 ≤ length plan.old }
    ensures long { length plan.new ≡ length plan.old }
    ensures marked { (v : ℕ) → is_map_written state.entry.now v ≡ true → get_or plan.new (v / 256) false ≡ true }
    ensures kept { (k : ℕ) → get_or plan.old k false ≡ true → get_or plan.new k false ≡ true }
    ensures others { (k : ℕ) → level_width (entry_count state.entry.now.span) 0 ≤ k → get_or plan.new k false ≡ get_or plan.old k false }
{
    for vvbn in state.span..entry_count(state.span) {
        if is_map_written(state, vvbn) {
            plan[(vvbn / 256) as usize] = true;
        }
    }
}

/// Writes the block of a map under a VVBN behind the span to a place.
fn write_bits<D: Disk>(
    state: &VolumeState,
    store: &mut Store,
    disk: &mut D,
    vvbn: u32,
    place: u32,
) -> Result<(), Failed>
    requires stands { StandsOn (D.shown disk.old) store.old.pairs }
    requires past { state.now.span ≤ vvbn }
    requires within { vvbn < entry_count state.now.span }
    requires bits { state.now.map.span ≡ state.now.span }
    ensures bits { IsTrue (D.shown disk.old).tells
        → OnOk result (IsBlockOf (slot_map state.entry.now (map_slot state.entry.now.span vvbn)) (map_index state.entry.now.span vvbn) ((D.shown disk.new).reads place)) }
    ensures spares { Spares (IsOther place) (D.shown disk.old) (D.shown disk.new) result }
    ensures stands { StandsOn (D.shown disk.new) store.new.pairs }
{
    let mut block = ZERO;
    map_block(
        &state.map,
        map_slot(state.span, vvbn),
        map_index(state.span, vvbn),
        &mut block,
    );
    store.put(disk, place, &block)
}

/// Writes the blocks of the maps that a consistency point writes to free blocks, and places them in the container, whose leaves are in
/// memory that have their entries. Costs a step for each VVBN behind the span, and a write for each block.
pub(crate) fn write_maps<D: Disk>(
    state: &VolumeState,
    container: &mut Container,
    store: &mut Store,
    map: &mut AggMap,
    disk: &mut D,
) -> Result<(), Failed>
    requires stands { StandsOn (D.shown disk.old) store.old.pairs }
    requires entries { HasEntries state.now container.old.map }
    requires loaded { HasMapLeaves state.now container.old }
    requires room { map_writes state.now (entry_count state.now.span) ≤ free_blocks map.old }
    ensures map { OnOk result (HasMaps state.entry.now (entry_count state.entry.now.span) container.old.map container.new.map) }
    ensures bits { IsTrue (D.shown disk.old).tells → OnOk result (StandBits state.entry.now (entry_count state.entry.now.span) container.new.map (D.shown disk.new).reads) }
    ensures drawn { OnOk result (HasDrawn map.old (has_maps_at state.entry.now container.new.map (entry_count state.entry.now.span)) (map_writes state.entry.now (entry_count state.entry.now.span)) map.new) }
    ensures committed { map.new.committed ≡ map.old.committed }
    ensures tree { container.new.map.tree ≡ container.old.map.tree }
    ensures clean { StaysClean container.old container.new }
    ensures entries { length container.new.map.entries ≡ entry_count state.entry.now.span }
    ensures spares { Spares (IsTaken map.old) (D.shown disk.old) (D.shown disk.new) result }
    ensures stands { StandsOn (D.shown disk.new) store.new.pairs }
{
    for vvbn in state.span..entry_count(state.span) {
        if is_map_written(state, vvbn) {
            let place = take_block(map);
            write_bits(state, store, disk, vvbn, place)?;
            let entry = Entry {
                pvbn: place,
                kind: MAP_BLOCK,
            };
            container.place(vvbn, entry);
        }
    }
    Ok(())
}
