//! A container whose leaves are read when they are asked for.

ghost use Rattle.std.specs.Prelude.{◌≡◌, ◌<◌, ◌≤◌, ◌+◌, ◌*◌, ◌/◌, ℕ, true, false, None, Some, length, get_or, IsTrue, IfOk, IfSome, IfErr, OnErr, OnOk};
ghost use Rattle.std.specs.FinSet as set;
ghost use Rattle.fv_codec.specs.Blocks.{last_place};
ghost use Rattle.fv_disk.specs.Sparing.{Spares};
ghost use Rattle.fv_container.specs.Written.{HasReleased, blocks_needed};
ghost use Rattle.fv_container.specs.Clean.{AreClean, IsCleanOn, IsCleanTree};
ghost use Rattle.fv_container.specs.Flushed.{GivesUp, HasDropped, IsApart, IsFlushed, IsMoved, WasTaken, without_value};
ghost use Rattle.fv_image.specs.Containers.{height_of, level_width, most_entries};
ghost use Rattle.fv_store.specs.Held.{StandsOn};
ghost use Rattle.fv_disk.specs.DiskCalls.{OnlyReads};
ghost use Rattle.fv_disk.specs.Faults.{HasBlockCause};
ghost use Rattle.fv_container.specs.Spelled.{IsFault, IsOpened};
ghost use Rattle.fv_container.specs.Mapped.{IsEntry, IsHeld, IsMapped, entry_under};
ghost use Rattle.fv_container.specs.Paged.{Paged, empty_paged, is_here, is_known, is_sure};
ghost use Rattle.fv_container.specs.Loading.{HasLoaded, HasPut, HasSet, KeepsMap};
ghost use Rattle.fv_container.specs.Reading.{IsBadNode};
ghost use Rattle.fv_container.specs.Seeing.{IsSomeFault};

use crate::bits::{learn_in, occupy, put_bit};
use crate::entry::Entry;
use crate::fault::ContainerFault;
use crate::flush::flush_tree;
use crate::free::Free;
use crate::layout::{
    FAN, above_count, absent_leaves, fill, filled, grown, leaf_count, marks_above, node_count,
};
use crate::leaf::{
    boxed, drop_leaves, entry_in, has_leaf, mark_changed, no_leaves, put_in, read_region,
};
use crate::load::read_tree;
use crate::places::{release_places, root_number};
use crate::position::{are_places, both};
use crate::telling::{
    AfterLearn, AfterMake, AfterOpen, AfterSet, Learning, Making, Opening, Setting,
};
use crate::told::Told;
use fv_bits::BitMap;
use fv_codec::{ContainerLeaf, GREATEST_KIND};
use fv_disk::{Disk, Failed};
use fv_store::Store;
use std::alloc::{AllocError, Global};
use std::marker::Model;

/// Which block stands under each VVBN of a volume.
///
/// A region is the 256 VVBNs of a leaf of its tree. The places of all nodes are in memory, and a leaf only while it is changed, or once it
/// was loaded. Contracts see the entries by VVBN, each an entry or a hole, the places of the tree's nodes, and which of these are dirty.
/// Beside these they see of which regions the leaf is in memory, of which it is known which entries are holes, and whether that is as the
/// entries say, which it is where the container is clean on the disk.
///
/// Its rows have memory enough for the entries that it may grow to.
#[derive(Drop)]
pub struct Container {
    alloc: Global,
    /// How many entries there are.
    pub(crate) count: u32,
    /// What clauses say of them.
    pub(crate) told: Told,
    /// The leaves in memory, by region.
    pub(crate) leaves: Vec<Option<Box<ContainerLeaf>>>,
    /// The places of the tree that the disk has: leaves, the level above, and a root above that; 0 is no
    /// place.
    pub(crate) tree: Vec<u32>,
    /// Which nodes may say something else on the disk.
    dirty: Vec<bool>,
    /// Room for the places of the next tree, so that a flush needs no memory.
    next: Vec<u32>,
    /// And room for those of them that are new.
    fresh: Vec<u32>,
    /// The VVBNs whose entries aren't holes, with room for all that there may be.
    pub(crate) used: BitMap,
    /// The regions that have such a VVBN, with room for all that there may be. As long as the leaf of a region wasn't read, it isn't one.
    pub(crate) occupied: BitMap,
    /// Of which regions these are known.
    pub(crate) known: Vec<bool>,
    /// The greatest kind of an entry, by which leaves are read.
    pub(crate) most_kind: u32,
}

impl Model for Container {
    ghost use Rattle.fv_container.specs.Paged.{Paged};
    ghost use Rattle.std.specs.Prelude.{length};
    ghost use Rattle.std.specs.Vec.{vec_capacity};
    ghost use Rattle.fv_container.specs.Kept.{AreOccupied, CanGrow, IsKept, ReadsKinds, paged_of};

    ghost Value = { Paged };

    ghost view = { λ c. paged_of c.told.entries c.tree.items c.dirty.items c.leaves.items c.known.items c.told.sure };

    ghost invariant = { λ c.
        IsKept (paged_of c.told.entries c.tree.items c.dirty.items c.leaves.items c.known.items c.told.sure)
        c.count c.leaves.items c.used c.next.items c.fresh.items
        × CanGrow c.count (record {
          leaves = vec_capacity c.leaves;
          tree = vec_capacity c.tree;
          dirty = vec_capacity c.dirty;
          next = vec_capacity c.next;
          fresh = vec_capacity c.fresh;
          known = vec_capacity c.known;
          used = length c.used;
        })
        × AreOccupied c.count c.used c.occupied
        × ReadsKinds c.most_kind };
}

impl Container {
    /// A container of so many entries, at most 16,777,216, all of them holes. The one error is want of
    /// memory. Costs a step for each region, and a bit for each entry.
    pub fn new(alloc: Global, entries: u32) -> Result<Container, AllocError>
        requires { entries ≤ most_entries }
        ensures empty { IfOk result (λ container. container ≡ empty_paged entries) }
    {
        let count = entries as usize;
        let most = grown(count);
        let nodes = node_count(count);
        let room = node_count(most);
        let regions = leaf_count(count);
        let known = filled(alloc, regions, leaf_count(most), true)?;
        let leaves = no_leaves(alloc, regions, leaf_count(most))?;
        let tree = filled(alloc, nodes, room, 0)?;
        let dirty = marks_above(alloc, regions, above_count(count), room, true)?;
        let next = filled(alloc, nodes, room, 0)?;
        let fresh = filled(alloc, nodes, room, 0)?;
        let used = BitMap::new(alloc, most as u32)?;
        let occupied = BitMap::new(alloc, leaf_count(most) as u32)?;
        let told = Told::of::<Making<'_>, AfterMake>(&Making {
            count: entries,
            known: &known,
        });
        Ok(Container {
            alloc,
            count: entries,
            told,
            leaves,
            tree,
            dirty,
            next,
            fresh,
            used,
            occupied,
            known,
            most_kind: GREATEST_KIND,
        })
    }

    /// The map that the tree on the disk spells with this root, height and number of entries: at most 16,777,216 entries, and one or two
    /// levels of inner nodes. A root of 0 is a tree of holes. It reads the nodes above the leaves, and no leaf: an entry of a leaf without
    /// its shape is a hole here, and that the leaf is damaged is told by the call that reads it.
    ///
    /// A node is taken by where the pointer led: where the level or the number that it names isn't
    /// that of its position, or it has something past the last entry, all nodes above the leaves are dirty, and else none is. No leaf is.
    /// Whether its place lies past the aggregate isn't asked, whose size isn't known here.
    ///
    /// # Errors
    /// `Damaged` comes only where a node above the leaves hasn't the shape of one, and `Ok` never does there:
    /// its place, and the wanted and the found number of its first field that isn't as said. `DiskFault`
    /// comes only where a read failed in this call, and `Memory` where memory ran out. It reads one block
    /// for each node above the leaves, and costs a step for each region, and a bit for each entry.
    pub fn at<D: Disk>(
        alloc: Global,
        store: &mut Store,
        disk: &mut D,
        entries: u32,
        height: u8,
        root: u32,
    ) -> Result<Container, ContainerFault>
        requires few { entries ≤ most_entries }
        requires least { 1 ≤ height }
        requires greatest { height ≤ 2 }
        requires stands { StandsOn (D.shown disk.old) store.old.pairs }
        ensures opened { IsTrue (D.shown disk.old).tells
            → IfOk result (λ container. IsOpened (D.shown disk.old).reads root height container.map) }
        ensures clean { IsTrue (D.shown disk.old).tells → IsCleanTree (D.shown disk.old).reads root height entries
            → IfOk result (IsCleanOn (D.shown disk.old).reads) }
        ensures kept { IsTrue (D.shown disk.old).tells → IsCleanTree (D.shown disk.old).reads root height entries
            → IfOk result (λ container. AreClean container.map) }
        ensures size { IfOk result (λ container. length container.map.entries ≡ entries) }
        ensures absent { IfOk result (λ container. (k : ℕ) → k < level_width entries 0 → get_or container.map.tree k 0 ≡ 0
            → is_known container k ≡ true) }
        ensures away { IfOk result (λ container. (k : ℕ) → is_here container k ≡ false) }
        ensures valid { IfOk result (λ container. IsMapped container.map) }
        ensures fault { IsTrue (D.shown disk.old).tells → IfErr result (IsFault (D.shown disk.old).reads root height entries) }
        ensures only_reads { OnlyReads (D.shown disk.old) (D.shown disk.new) }
        ensures stands { StandsOn (D.shown disk.new) store.new.pairs }
        ensures cause { HasBlockCause (D.shown disk.old).faults (D.shown disk.new).faults result }
    {
        let count = entries as usize;
        let most = grown(count);
        let nodes = node_count(count);
        let room = node_count(most);
        let regions = leaf_count(count);
        let mut tree = filled(alloc, nodes, room, 0)?;
        let next = filled(alloc, nodes, room, 0)?;
        let fresh = filled(alloc, nodes, room, 0)?;
        let leaves = no_leaves(alloc, regions, leaf_count(most))?;
        let used = BitMap::new(alloc, most as u32)?;
        let occupied = BitMap::new(alloc, leaf_count(most) as u32)?;
        let whole = read_tree(store, disk, &mut tree, count, height, root)?;
        let stands = both(whole, are_places(&tree));
        let dirty = marks_above(alloc, regions, above_count(count), room, !stands)?;
        let known = absent_leaves(alloc, &tree, regions, leaf_count(most))?;
        let told = Told::of::<Opening<'_, D>, AfterOpen>(&Opening {
            disk,
            tree: &tree,
            count: entries,
            known: &known,
        });
        Ok(Container {
            alloc,
            count: entries,
            told,
            leaves,
            tree,
            dirty,
            next,
            fresh,
            used,
            occupied,
            known,
            most_kind: GREATEST_KIND,
        })
    }

    /// Holds the leaf of a region in memory, so that its entries can be told and changed without a fault. The region has a VVBN below the
    /// number of entries. Every entry stays.
    ///
    /// # Errors
    /// `Damaged` comes only where the leaf on the disk hasn't the shape of one, `DiskFault` only where a read failed in this call, and
    /// `Memory` where memory ran out. After each nothing has changed. It reads one block at most, and none where the leaf is in memory or
    /// absent, and takes 2 KB.
    pub fn load<D: Disk>(
        &mut self,
        store: &mut Store,
        disk: &mut D,
        region: u32,
    ) -> Result<(), ContainerFault>
        requires within { 256 * region < length self.old.map.entries }
        requires stands { StandsOn (D.shown disk.old) store.old.pairs }
        ensures loaded { OnOk result (HasLoaded (D.shown disk.old) region self.old self.new) }
        ensures failed { OnErr result (self.new ≡ self.old) }
        ensures fault { IsTrue (D.shown disk.old).tells
            → IfErr result (IsBadNode (D.shown disk.old).reads (get_or self.old.map.tree region 0) 0) }
        ensures only_reads { OnlyReads (D.shown disk.old) (D.shown disk.new) }
        ensures stands { StandsOn (D.shown disk.new) store.new.pairs }
        ensures cause { HasBlockCause (D.shown disk.old).faults (D.shown disk.new).faults result }
    {
        let at = region as usize;
        if self.leaves[at].is_some() {
            return Ok(());
        }
        let count = self.count as usize;
        let leaf = read_region(store, disk, self.tree[at], at, count, self.most_kind)?;
        let held = boxed(self.alloc, leaf)?;
        learn_in(&mut self.used, 256 * region, &leaf);
        occupy(&mut self.occupied, &self.used, region);
        self.leaves[at] = Some(held);
        self.known[at] = true;
        self.told = Told::of::<Learning<'_>, AfterLearn>(&Learning {
            told: &self.told,
            leaves: &self.leaves,
            used: &self.used,
            region: at,
        });
        Ok(())
    }

    /// Holds the leaves of the regions of a plan in memory. At an error some of them are, and every entry stays.
    ///
    /// # Errors
    /// As those of `load`, of one of these regions. It reads one block at most for each.
    #[tactic(auto, using(crate::proofs::Loaded::keeps_itself, crate::proofs::Loaded::keeps_more, crate::proofs::Loaded::planned_more, crate::proofs::Loaded::planned_fault, crate::proofs::Reading::reads_none, fv_disk::proofs::Resting::reads_then))]
    pub fn load_all<D: Disk>(
        &mut self,
        store: &mut Store,
        disk: &mut D,
        plan: &[bool],
    ) -> Result<(), ContainerFault>
        requires within { (k : ℕ) → get_or plan.now k false ≡ true → 256 * k < length self.old.map.entries }
        requires few { length plan.now ≤ 65536 }
        requires stands { StandsOn (D.shown disk.old) store.old.pairs }
        ensures kept { KeepsMap (D.shown disk.old) self.old self.new }
        ensures loaded { OnOk result ((k : ℕ) → get_or plan.now k false ≡ true → is_here self.new k ≡ true) }
        ensures fault { IsTrue (D.shown disk.old).tells
            → IfErr result (IsSomeFault (D.shown disk.old).reads self.old.map.tree (level_width (length self.old.map.entries) 0)) }
        ensures only_reads { OnlyReads (D.shown disk.old) (D.shown disk.new) }
        ensures stands { StandsOn (D.shown disk.new) store.new.pairs }
        ensures cause { HasBlockCause (D.shown disk.old).faults (D.shown disk.new).faults result }
    {
        for k in 0..plan.len() {
            if plan[k] {
                self.load(store, disk, k as u32)?;
            }
        }
        Ok(())
    }

    /// Sets the entry of a VVBN below the number of entries, or makes it a hole; its leaf is in memory then. An equal entry leaves the leaf
    /// as clean as it was. Costs one step.
    ///
    /// # Errors
    /// As those of `load`; after each nothing has changed.
    pub fn set<D: Disk>(
        &mut self,
        store: &mut Store,
        disk: &mut D,
        vvbn: u32,
        entry: Option<Entry>,
    ) -> Result<(), ContainerFault>
        requires within { vvbn < length self.old.map.entries }
        requires entry { IfSome entry IsEntry }
        requires stands { StandsOn (D.shown disk.old) store.old.pairs }
        ensures set { OnOk result (HasSet (D.shown disk.old) vvbn entry self.old self.new) }
        ensures failed { OnErr result (self.new ≡ self.old) }
        ensures fault { IsTrue (D.shown disk.old).tells
            → IfErr result (IsBadNode (D.shown disk.old).reads (get_or self.old.map.tree (vvbn / 256) 0) 0) }
        ensures only_reads { OnlyReads (D.shown disk.old) (D.shown disk.new) }
        ensures stands { StandsOn (D.shown disk.new) store.new.pairs }
        ensures cause { HasBlockCause (D.shown disk.old).faults (D.shown disk.new).faults result }
    {
        self.load(store, disk, vvbn / 256)?;
        self.put(vvbn, entry);
        Ok(())
    }

    /// Whether the leaf of a region is in memory. A region behind the last entry has none. Costs one step.
    pub fn is_here(&self, region: u32) -> bool
        ensures { result ≡ is_here self.now region }
    {
        has_leaf(&self.leaves, region as usize)
    }

    /// The entry of a VVBN below the number of entries whose leaf is in memory, `None` exactly for a hole. It takes no memory and
    /// makes no disk call. Costs one step.
    pub fn entry_at(&self, vvbn: u32) -> Option<Entry>
        requires within { vvbn < length self.now.map.entries }
        requires loaded { is_here self.now (vvbn / 256) ≡ true }
        ensures entry { is_sure self.now (vvbn / 256) ≡ true → result ≡ entry_under self.now.map vvbn }
        ensures held { IfSome result IsHeld }
    {
        let at = vvbn as usize;
        entry_in(&self.leaves, at / FAN, at % FAN)
    }

    /// Makes the entry of a VVBN below the number of entries a hole, whose leaf is in memory. It takes no memory and makes no disk
    /// call. Costs one step.
    pub fn make_hole(&mut self, vvbn: u32)
        requires within { vvbn < length self.old.map.entries }
        requires loaded { is_here self.old (vvbn / 256) ≡ true }
        ensures { HasPut vvbn None self.old self.new }
    {
        self.put(vvbn, None);
    }

    /// Places a block under a VVBN below the number of entries, whose leaf is in memory. It takes no memory and makes no disk call.
    /// Costs one step.
    pub fn place(&mut self, vvbn: u32, entry: Entry)
        requires within { vvbn < length self.old.map.entries }
        requires loaded { is_here self.old (vvbn / 256) ≡ true }
        requires entry { IsEntry entry }
        ensures { HasPut vvbn (Some entry) self.old self.new }
    {
        self.put(vvbn, Some(entry));
    }

    /// Puts an entry or a hole under a VVBN, and says that its leaf is dirty where it was another.
    fn put(&mut self, vvbn: u32, entry: Option<Entry>)
        requires within { vvbn < length self.old.map.entries }
        requires loaded { is_here self.old (vvbn / 256) ≡ true }
        requires entry { IfSome entry IsEntry }
        ensures { HasPut vvbn entry self.old self.new }
    {
        let at = vvbn as usize;
        let changed = put_in(&mut self.leaves, at / FAN, at % FAN, entry);
        put_bit(&mut self.used, vvbn, entry.is_some());
        occupy(&mut self.occupied, &self.used, vvbn / 256);
        self.told = Told::of::<Setting<'_>, AfterSet>(&Setting {
            told: &self.told,
            vvbn: at,
            entry,
        });
        mark_changed(&mut self.dirty, at / FAN, changed);
    }

    /// Writes what is dirty of the container to blocks that are free in `map`, and answers the root of its tree, which has the least
    /// height, at least 1, whose fan-out of 256 covers the leaves. A dirty leaf that holds only holes is absent, and no node has anything
    /// past the last entry. A node stays at its place where neither it is dirty nor a node below it moves, so each leaf that isn't dirty
    /// stays, and where none moves the root is the one that it was. The blocks of the old tree are given back that the new one lacks. `map`
    /// has as many free blocks as the tree has dirty leaves with an entry and nodes above the leaves, and has at most so many fewer
    /// afterwards. No leaf is in memory afterwards.
    ///
    /// It needs no memory and reads nothing, and no block is written that wasn't free in `map` at the call. The store may take memory for
    /// the leaves that are written, which it holds where memory is found for them; where none is found, that is no error. The one error is
    /// a failed write; the container then stands as before, with its old tree, and the blocks that were taken are lost to `map`. Costs a
    /// step for each node, a few times over, and for each entry of a dirty leaf, and a write for each node that moves.
    pub fn flush<D: Disk, F: Free>(
        &mut self,
        store: &mut Store,
        disk: &mut D,
        map: &mut F,
    ) -> Result<u32, Failed>
        requires stands { StandsOn (D.shown disk.old) store.old.pairs }
        requires room { blocks_needed self.old ≤ set.len (F.room map.old).free }
        ensures entries { self.new.map.entries ≡ self.old.map.entries }
        ensures gives_up { OnErr result (GivesUp (F.room map.old) self.old self.new (F.room map.new)) }
        ensures flushed { IsTrue (D.shown disk.old).tells
            → IsApart (F.room map.old) self.old.map.tree
            → IsCleanOn (D.shown disk.old).reads self.old
            → IfOk result (λ root. IsFlushed (D.shown disk.new).reads root (height_of (length self.new.map.entries)) self.new.map) }
        ensures over { IsTrue (D.shown disk.old).tells
            → IsApart (F.room map.old) self.old.map.tree
            → IsCleanOn (D.shown disk.old).reads self.old
            → OnOk result (IsCleanOn (D.shown disk.new).reads self.new) }
        ensures clean { OnOk result (AreClean self.new.map) }
        ensures dropped { OnOk result (HasDropped self.old self.new) }
        ensures root { IfOk result (λ root. (1 ≤ root) × (root ≤ last_place)) }
        ensures writes { Spares (WasTaken (F.room map.old)) (D.shown disk.old) (D.shown disk.new) (without_value result) }
        ensures moved { OnOk result (IsMoved (F.room map.old) self.old self.new.map (F.room map.new)) }
        ensures valid { IsMapped self.old.map × IsMapped self.new.map }
        ensures stands { StandsOn (D.shown disk.new) store.new.pairs }
    {
        flush_tree(
            store,
            disk,
            map,
            &self.leaves,
            self.count as usize,
            &self.tree,
            &self.dirty,
            &mut self.next,
            &mut self.fresh,
        )?;
        std::mem::swap(&mut self.tree, &mut self.next);
        fill(&mut self.dirty, false);
        drop_leaves(&mut self.leaves);
        Ok(self.tree[root_number(self.count as usize)])
    }

    /// Gives the blocks of the tree back that the disk has, for a container that no root will name any more. It stays as it is. Costs a
    /// step for each node of the tree.
    pub fn release_tree<F: Free>(&self, map: &mut F)
        ensures { HasReleased (F.room map.old) self.now.map.tree (length self.now.map.tree) (F.room map.new) }
    {
        release_places(map, &self.tree);
    }
}
