//! Writing those nodes of a tree to free blocks that can't stay where they stand.

ghost use Rattle.std.specs.Prelude.{◌≤◌, ℕ, get_or, IsTrue, OnOk, OnErr};
ghost use Rattle.std.specs.FinSet as set;
ghost use Rattle.fv_codec.specs.Blocks.{last_place};
ghost use Rattle.fv_store.specs.Held.{StandsOn};
ghost use Rattle.fv_disk.specs.Sparing.{Spares};
ghost use Rattle.fv_container.specs.Mapped.{node_count};
ghost use Rattle.fv_container.specs.Written.{may_move, passed_before, root_number};
ghost use Rattle.fv_container.specs.Flushed.{AreRows, KeepLengths, Loses, WasTaken};
ghost use Rattle.fv_container.specs.Storing.{HasMoved, HasStored};

use crate::free::Free;
use crate::places::{put_left, release_places, take_places};
use crate::write::write_tree;
use fv_codec::ContainerLeaf;
use fv_disk::{Disk, Failed};
use fv_store::Store;

/// Writes the nodes of a tree that can't stay where they stand to blocks that are free, and then gives the places of the old tree
/// back that the new one lacks. The places of the new one are put into `next`.
pub(crate) fn flush_tree<D: Disk, F: Free>(
    store: &mut Store,
    disk: &mut D,
    map: &mut F,
    leaves: &[Option<Box<ContainerLeaf>>],
    count: usize,
    tree: &[u32],
    dirty: &[bool],
    next: &mut [u32],
    fresh: &mut [u32],
) -> Result<(), Failed>
    requires stands { StandsOn (D.shown disk.old) store.old.pairs }
    requires rows { AreRows leaves.now count tree.now dirty.now next.old fresh.old }
    requires room { passed_before (may_move leaves.now dirty.now count) (node_count count) ≤ set.len (F.room map.old).free }
    ensures lengths { KeepLengths next.old next.new fresh.old fresh.new }
    ensures bounded { OnOk result ((m : ℕ) → get_or next.new m 0 ≤ last_place) }
    ensures written { IsTrue (D.shown disk.old).tells
        → OnOk result (HasStored (F.room map.old) leaves.now count tree.now dirty.now (D.shown disk.old).reads next.new (D.shown disk.new).reads) }
    ensures root { OnOk result ((1 ≤ get_or next.new (root_number count) 0) × (get_or next.new (root_number count) 0 ≤ last_place)) }
    ensures spares { Spares (WasTaken (F.room map.old)) (D.shown disk.old) (D.shown disk.new) result }
    ensures moved { OnOk result (HasMoved (F.room map.old) leaves.now count tree.now dirty.now next.new (F.room map.new)) }
    ensures lost { OnErr result (Loses (F.room map.old) (F.room map.new)) }
    ensures stands { StandsOn (D.shown disk.new) store.new.pairs }
{
    take_places(map, leaves, count, tree, dirty, next, fresh);
    write_tree(store, disk, leaves, count, next, fresh)?;
    put_left(tree, next, fresh);
    release_places(map, fresh);
    Ok(())
}
