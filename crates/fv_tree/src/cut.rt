//! Cutting a tree: all its cells from a length on go.

ghost use Rattle.std.specs.Prelude.{◌≡◌, ◌≤◌, ◌<◌, ◌+◌, ◌-◌, ◌*◌, ◌/◌, ◌^◌, ℕ, nat_le, ◌++◌, ◌∷◌, [], OnOk, IfOk, IfErr};
ghost use Rattle.fv_model.specs.Trees.{fan};
ghost use Rattle.fv_tree.specs.Places.{HasRightPlaces};
ghost use Rattle.fv_tree.specs.Spelled.{Under};
ghost use Rattle.fv_tree.specs.Standing.{standing, under};
ghost use Rattle.fv_tree.specs.Erasing.{HoldsCells, StandsAt};
ghost use Rattle.fv_tree.specs.Releasing.{Removes};
ghost use Rattle.fv_tree.specs.Flushing.{Stands};
ghost use Rattle.fv_tree.specs.Removal.{Removal};
ghost use Rattle.fv_tree.specs.Costs.{pending};
ghost use Rattle.fv_tree.specs.Collecting.{AllBelow, IsRising, Collects, IsHeld, StillHeld, AreHeld, Extends, IsAdded, IsChildPast, IsUnder};
ghost use Rattle.fv_tree.specs.Calls.{Loading, Removing};
ghost use Rattle.fv_disk.specs.declared.fault.BlockFault.TheVariants.{Memory};

use crate::blocks::{Blocks, TreeFault};
use crate::erase::erase_cell;
use crate::keep::keep_node;
use crate::kept::Tree;
use crate::placing::pointer_in;
use crate::sizes::{FAN, width};
use fv_codec::Pointer;

impl Tree {
    /// Removes all cells from `length` on, with each mark that has no cell left. Each other mark over one of them
    /// gets the stamp, which is at least 1. With no cell left the levels become `start`, at most 3. Where no cell
    /// goes nothing changes. It loads only nodes over the cells that go and on the way to the border, and holds them
    /// in memory, with four bytes for each of those cells. It names each placed block that it drops once to `gone`,
    /// after its last load. Answers how many positions went: those cells and those marks. Where each mark has a cell,
    /// only the nodes over the border differ from their blocks that didn't before, at most 3. After a fault the tree
    /// is seen as before, and none was named.
    ///
    /// # Errors
    ///
    /// As `get`, and `Memory` where there is no memory for the nodes and the list.
    pub fn cut<B: Blocks>(
        &mut self,
        blocks: &mut B,
        length: u32,
        start: u8,
        stamp: u64,
    ) -> Result<u32, TreeFault>
        requires start { start ≤ 3 }
        requires stamp { 1 ≤ stamp }
        requires right { B.told → HasRightPlaces (B.shown blocks.old) self.old }
        ensures pending { B.told → OnOk result (Stands (B.shown blocks.old) self.old → HoldsCells (standing (under (B.shown blocks.old)) self.old) → pending self.new ≤ pending self.old + 3) }
        ensures removal { Removal B.told (B.goes blocks.old blocks.new) (B.shown blocks.old) (B.shown blocks.new) self.old self.new (nat_le length) start stamp result }
    {
        cut_cells(self, blocks, length, start, stamp)
    }
}

/// Removes all cells from a length on, over the blocks that there were.
fn cut_cells<B: Blocks>(
    tree: &mut Tree,
    blocks: &mut B,
    most: u32,
    start: u8,
    stamp: u64,
) -> Result<u32, TreeFault>
    requires start { start ≤ 3 }
    requires stamp { 1 ≤ stamp }
    requires right { B.told → HasRightPlaces (B.shown blocks.old) tree.old }
    ensures pending { B.told → OnOk result (Stands (B.shown blocks.old) tree.old → HoldsCells (standing (under (B.shown blocks.old)) tree.old) → pending tree.new ≤ pending tree.old + 3) }
    ensures removing { Removing B.told (B.goes blocks.old blocks.new) (B.shown blocks.old) (B.shown blocks.new) tree.old tree.new (nat_le most) start stamp result }
{
    let cells = keep_past(tree, blocks, most)?;
    let mut count: u32 = 0;
    for index in cells.as_slice() {
        let gone = erase_cell(tree, blocks, *index, start, stamp);
        count = count.saturating_add(gone);
    }
    Ok(count)
}

/// Holds all nodes over the cells from a length on in memory, and answers those cells.
fn keep_past<B: Blocks>(tree: &mut Tree, blocks: &mut B, most: u32) -> Result<Vec<u32>, TreeFault>
    requires right { B.told → HasRightPlaces (B.shown blocks.old) tree.old }
    ensures cells { B.told → IfOk result (λ cells. Collects (standing (under (B.shown blocks.old)) tree.old) 0 most cells.items) }
    ensures nodes { B.told → OnOk result (AreHeld tree.new (standing (under (B.shown blocks.old)) tree.old) 0 most) }
    ensures bound { IfOk result (λ cells. AllBelow cells.items (fan ^ 3)) }
    ensures loading { Loading B.told (B.reads blocks.old blocks.new) (B.shown blocks.old) (B.shown blocks.new) tree.old tree.new result }
{
    let mut level = tree.levels;
    let mut places = top_places(tree, most)?;
    while level > 0 {
        places = keep_level(tree, blocks, level, places.as_slice(), most)?;
        level -= 1;
    }
    Ok(places)
}

/// The one range of the tree's levels, where it stands and has an index from a length on.
fn top_places(tree: &Tree, most: u32) -> Result<Vec<u32>, TreeFault>
    ensures places { (held : Under) → IfOk result (λ places. Collects (standing held tree.now) tree.now.levels most places.items) }
    ensures bound { IfOk result (λ places. AllBelow places.items (fan ^ (3 - tree.now.levels))) }
    ensures memory { IfErr result (λ e. e ≡ Memory) }
{
    let mut places = Vec::new(tree.alloc);
    if tree.root.stamp == 0 {
        return Ok(places);
    }
    if most >= width(tree.levels) {
        return Ok(places);
    }
    add(&mut places, 0)?;
    Ok(places)
}

/// Adds a number.
fn add(places: &mut Vec<u32>, place: u32) -> Result<(), TreeFault>
    ensures added { OnOk result (places.new.items ≡ places.old.items ++ place ∷ []) }
    ensures memory { IfErr result (λ e. e ≡ Memory) }
{
    match places.push(place) {
        Ok(()) => Ok(()),
        Err(_) => Err(TreeFault::Memory),
    }
}

/// Holds the nodes of some ranges of a level in memory, and answers the ranges of the level below that stand
/// under one of them and have an index from a length on.
fn keep_level<B: Blocks>(
    tree: &mut Tree,
    blocks: &mut B,
    level: u8,
    places: &[u32],
    most: u32,
) -> Result<Vec<u32>, TreeFault>
    requires low { 1 ≤ level }
    requires high { level ≤ tree.old.levels }
    requires places { B.told → Collects (standing (under (B.shown blocks.old)) tree.old) level most places.now }
    requires nodes { B.told → AreHeld tree.old (standing (under (B.shown blocks.old)) tree.old) level most }
    requires bound { AllBelow places.now (fan ^ (3 - level)) }
    requires right { B.told → HasRightPlaces (B.shown blocks.old) tree.old }
    ensures places { B.told → IfOk result (λ below. Collects (standing (under (B.shown blocks.old)) tree.old) (level - 1) most below.items) }
    ensures nodes { B.told → OnOk result (AreHeld tree.new (standing (under (B.shown blocks.old)) tree.old) (level - 1) most) }
    ensures bound { IfOk result (λ below. AllBelow below.items (fan ^ (3 - (level - 1)))) }
    ensures loading { Loading B.told (B.reads blocks.old blocks.new) (B.shown blocks.old) (B.shown blocks.new) tree.old tree.new result }
{
    let mut below = Vec::new(tree.alloc);
    for place in places {
        keep_range(tree, blocks, level, *place, most, &mut below)?;
    }
    Ok(below)
}

/// Holds the node of a range in memory, and adds the ranges under it that stand and have an index from a length
/// on.
fn keep_range<B: Blocks>(
    tree: &mut Tree,
    blocks: &mut B,
    level: u8,
    place: u32,
    most: u32,
    below: &mut Vec<u32>,
) -> Result<(), TreeFault>
    requires low { 1 ≤ level }
    requires high { level ≤ tree.old.levels }
    requires stands { B.told → StandsAt (standing (under (B.shown blocks.old)) tree.old) level place }
    requires node { B.told → level < tree.old.levels → IsHeld tree.old (level + 1) (place / fan) }
    requires range { place < fan ^ (3 - level) }
    requires right { B.told → HasRightPlaces (B.shown blocks.old) tree.old }
    ensures added { B.told → OnOk result (Extends (IsUnder (standing (under (B.shown blocks.old)) tree.old) level most place) below.old.items below.new.items) }
    ensures rising { OnOk result (IsRising below.old.items → AllBelow below.old.items (place * fan) → IsRising below.new.items × AllBelow below.new.items ((place + 1) * fan)) }
    ensures bound { OnOk result ((bound : ℕ) → (place + 1) * fan ≤ bound → AllBelow below.old.items bound → AllBelow below.new.items bound) }
    ensures node { B.told → OnOk result (IsHeld tree.new level place) }
    ensures nodes { B.told → StillHeld tree.old tree.new }
    ensures loading { Loading B.told (B.reads blocks.old blocks.new) (B.shown blocks.old) (B.shown blocks.new) tree.old tree.new result }
{
    let pointer = pointer_in(tree, level, place);
    keep_node(tree, blocks, level, place, &pointer)?;
    match tree.nodes.get(&(level, place)) {
        Some(node) => add_ranges(&node.children, level, place, most, below),
        None => Ok(()),
    }
}

/// Adds the ranges of a node that stand and have an index from a length on.
fn add_ranges(
    children: &[Pointer; 128],
    level: u8,
    place: u32,
    most: u32,
    below: &mut Vec<u32>,
) -> Result<(), TreeFault>
    requires low { 1 ≤ level }
    requires high { level ≤ 3 }
    requires range { place < 16384 }
    ensures added { OnOk result (Extends (IsChildPast children.now level most place) below.old.items below.new.items) }
    ensures rising { OnOk result (IsRising below.old.items → AllBelow below.old.items (place * fan) → IsRising below.new.items × AllBelow below.new.items ((place + 1) * fan)) }
    ensures bound { OnOk result ((bound : ℕ) → (place + 1) * fan ≤ bound → AllBelow below.old.items bound → AllBelow below.new.items bound) }
    ensures memory { IfErr result (λ e. e ≡ Memory) }
{
    let far = most / width(level - 1);
    for slot in 0..FAN {
        add_range(&children[slot as usize], far, place * FAN + slot, below)?;
    }
    Ok(())
}

/// Adds a range, where the pointer to it isn't a hole and it has an index from a length on.
fn add_range(pointer: &Pointer, far: u32, place: u32, below: &mut Vec<u32>) -> Result<(), TreeFault>
    ensures added { OnOk result (Extends (IsAdded pointer.now far place) below.old.items below.new.items) }
    ensures rising { OnOk result (IsRising below.old.items → AllBelow below.old.items place → IsRising below.new.items × AllBelow below.new.items (place + 1)) }
    ensures bound { OnOk result ((bound : ℕ) → place < bound → AllBelow below.old.items bound → AllBelow below.new.items bound) }
    ensures memory { IfErr result (λ e. e ≡ Memory) }
{
    if pointer.stamp != 0 && far <= place {
        return add(below, place);
    }
    Ok(())
}
