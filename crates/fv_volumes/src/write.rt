//! Writing one volume.

ghost use Rattle.std.specs.Prelude.{◌≡◌, ◌<◌, ◌≤◌, ◌+◌, IsTrue, IfOk, OnOk, Ok, false, length};
ghost use Rattle.fv_codec.specs.Blocks.{label_at, last_place};
ghost use Rattle.fv_disk.specs.Sparing.{Spares};
ghost use Rattle.fv_image.specs.Containers.{height_of};
ghost use Rattle.fv_image.specs.Views.{entry_count};
ghost use Rattle.fv_store.specs.Held.{StandsOn};
ghost use Rattle.fv_aggmap.specs.Space.{blocks_of, free_blocks};
ghost use Rattle.fv_container.specs.Clean.{IsCleanOn};
ghost use Rattle.fv_container.specs.Flushed.{without_value};
ghost use Rattle.fv_container.specs.Mapped.{IsMapped};
ghost use Rattle.fv_container.specs.Spelled.{names};
ghost use Rattle.fv_volume.specs.Labels.{label_said};
ghost use Rattle.fv_volume.specs.Files.{IsLabelled};
ghost use Rattle.fv_volume.specs.Writing.{CanFlush, HasBlocks, HasEntries, HasLabel, HasMapLeaves, HasOwnBlocks, HasRoomFor, IsOther, IsRightMemory, IsTaken, IsTakenOther, IsWritten, asked, on_disk};

use crate::giving::give_back_maps;
use crate::taking::{take_block, write_maps};
use fv_aggmap::AggMap;
use fv_container::{Container, height_of};
use fv_disk::{Disk, Failed, ZERO};
use fv_store::Store;
use fv_volume::{VolumeState, entry_count};

/// Writes the blocks of the maps that wait and the container, and answers the root of the container's tree. The nodes of the old tree are
/// given back that the new one lacks.
fn write_blocks<D: Disk>(
    state: &VolumeState,
    container: &mut Container,
    store: &mut Store,
    map: &mut AggMap,
    disk: &mut D,
) -> Result<u32, Failed>
    requires stands { StandsOn (D.shown disk.old) store.old.pairs }
    requires entries { HasEntries state.now container.old.map }
    requires loaded { HasMapLeaves state.now container.old }
    requires space { HasRoomFor state.now map.old }
    ensures written { IsTrue (D.shown disk.old).tells
        → CanFlush (D.shown disk.old).reads map.old container.old
        → IfOk result (λ root. HasBlocks state.entry.now container.old.map map.old root container.new.map (D.shown disk.new).reads map.new) }
    ensures memory { IsTrue (D.shown disk.old).tells
        → CanFlush (D.shown disk.old).reads map.old container.old
        → OnOk result (IsRightMemory container.new) }
    ensures root { IfOk result (λ root. (1 ≤ root) × (root ≤ last_place)) }
    ensures spares { Spares (IsTaken map.old) (D.shown disk.old) (D.shown disk.new) (without_value result) }
    ensures entries { length container.new.map.entries ≡ entry_count state.entry.now.span }
    ensures valid { OnOk result (IsMapped container.new.map) }
    ensures committed { map.new.committed ≡ map.old.committed }
    ensures count { OnOk result (free_blocks map.old + 1 ≤ free_blocks map.new + asked state.entry.now) }
    ensures stands { StandsOn (D.shown disk.new) store.new.pairs }
{
    write_maps(state, container, store, map, disk)?;
    let root = container.flush(store, disk, map)?;
    Ok(root)
}

/// Writes the label of a volume to a place.
fn write_label<D: Disk>(
    state: &VolumeState,
    root: u32,
    label: u32,
    store: &mut Store,
    disk: &mut D,
) -> Result<(), Failed>
    requires stands { StandsOn (D.shown disk.old) store.old.pairs }
    requires state { IsLabelled state.now.slot state.now }
    requires root { root ≤ last_place }
    ensures said { IsTrue (D.shown disk.old).tells
        → OnOk result (label_at ((D.shown disk.new).reads label) ≡ Ok (label_said state.entry.now root (height_of (entry_count state.entry.now.span)))) }
    ensures spares { Spares (IsOther label) (D.shown disk.old) (D.shown disk.new) result }
    ensures stands { StandsOn (D.shown disk.new) store.new.pairs }
{
    let mut block = ZERO;
    state
        .label(root, height_of(entry_count(state.span)))
        .encode(&mut block);
    store.put(disk, label, &block)
}

/// Writes a volume with its label at a place that was taken for it.
fn write_anew<D: Disk>(
    state: &VolumeState,
    container: &mut Container,
    store: &mut Store,
    map: &mut AggMap,
    disk: &mut D,
    label: u32,
) -> Result<(), Failed>
    requires stands { StandsOn (D.shown disk.old) store.old.pairs }
    requires state { IsLabelled state.now.slot state.now }
    requires entries { HasEntries state.now container.old.map }
    requires loaded { HasMapLeaves state.now container.old }
    requires space { HasRoomFor state.now map.old }
    requires taken { IsTaken map.old label }
    ensures written { IsTrue (D.shown disk.old).tells
        → CanFlush (D.shown disk.old).reads map.old container.old
        → names container.old.map.tree label ≡ false
        → OnOk result (HasLabel state.entry.now container.old.map map.old label container.new.map (D.shown disk.new).reads map.new) }
    ensures memory { IsTrue (D.shown disk.old).tells
        → CanFlush (D.shown disk.old).reads map.old container.old
        → OnOk result (IsRightMemory container.new) }
    ensures spares { Spares (IsTakenOther map.old label) (D.shown disk.old) (D.shown disk.new) result }
    ensures entries { length container.new.map.entries ≡ entry_count state.entry.now.span }
    ensures valid { OnOk result (IsMapped container.new.map) }
    ensures committed { map.new.committed ≡ map.old.committed }
    ensures count { OnOk result (free_blocks map.old + 1 ≤ free_blocks map.new + asked state.entry.now) }
    ensures stands { StandsOn (D.shown disk.new) store.new.pairs }
{
    let root = write_blocks(state, container, store, map, disk)?;
    write_label(state, root, label, store, disk)?;
    Ok(())
}

/// Writes a volume: the blocks of its active map, and of each snapshot's that waits, to new places, its container and its label, whose
/// PVBN it answers. Nodes of the container that aren't dirty stay where they stand (`Container::flush`). The old places of those maps, of
/// the other nodes and of the label are given back; every other entry stays, a delayed one, too. As many blocks are free as it asks for:
/// its overhead, and those of the snapshots' maps that wait. The leaves of the container are in memory that have the entries of these
/// maps' blocks, and none is afterwards. It needs no memory, though the store may take some for leaves that it holds, and reads nothing.
///
/// The one error is a failed write: the blocks that were taken are then lost to the map, and the container isn't as before. Costs a step
/// for each block of 25 maps, one for each node of the container and each entry of a dirty leaf, and a write for each block.
pub fn write_volume<D: Disk>(
    state: &VolumeState,
    container: &mut Container,
    store: &mut Store,
    map: &mut AggMap,
    disk: &mut D,
) -> Result<u32, Failed>
    requires stands { StandsOn (D.shown disk.old) store.old.pairs }
    requires state { IsLabelled state.now.slot state.now }
    requires entries { length container.old.map.entries ≡ entry_count state.now.span }
    requires loaded { HasMapLeaves state.now container.old }
    requires room { asked state.now ≤ free_blocks map.old }
    ensures written { IsTrue (D.shown disk.old).tells
        → HasOwnBlocks state.entry.now container.old.map map.old
        → IsCleanOn (D.shown disk.old).reads container.old
        → IfOk result (λ label. IsWritten state.entry.now container.old.map (D.shown disk.old).reads map.old label container.new.map (D.shown disk.new).reads map.new) }
    ensures memory { IsTrue (D.shown disk.old).tells
        → HasOwnBlocks state.entry.now container.old.map map.old
        → IsCleanOn (D.shown disk.old).reads container.old
        → OnOk result (IsRightMemory container.new) }
    ensures spares { Spares (IsTaken (on_disk map.old)) (D.shown disk.old) (D.shown disk.new) (without_value result) }
    ensures entries { length container.new.map.entries ≡ entry_count state.entry.now.span }
    ensures valid { OnOk result (IsMapped container.new.map) }
    ensures label { IfOk result (λ label. label < blocks_of map.old) }
    ensures committed { map.new.committed ≡ map.old.committed }
    ensures count { OnOk result (free_blocks map.old ≤ free_blocks map.new + asked state.entry.now) }
    ensures stands { StandsOn (D.shown disk.new) store.new.pairs }
{
    give_back_maps(state, container, map);
    let label = take_block(map);
    write_anew(state, container, store, map, disk, label)?;
    map.give_back(state.label_place());
    Ok(label)
}
