//! Reading a cell with the place where it was read.

ghost use Rattle.std.specs.Prelude.{◌≡◌, ◌≤◌, ◌+◌, ◌==◌, ℕ, Option, Some, None, cond, is_some, not, true, IfOk, IfErr, IfSome, OnOk, OnErr};
ghost use Rattle.std.specs.BTreeMap as maps;
ghost use Rattle.std.specs.Option.{option_map};
ghost use Rattle.std.specs.Ordering.{nat_cmp};
ghost use Rattle.fv_codec.specs.Forms.{has_form};
ghost use Rattle.fv_tree.specs.Places.{HasRightPlaces, IsReadable, MayLoad};
ghost use Rattle.fv_tree.specs.Spelled.{pointer_at, block_at};
ghost use Rattle.fv_tree.specs.Sources.{Counts, IsUntouched};
ghost use Rattle.fv_tree.specs.Standing.{standing, under, cell_in, Fails, PointerFails};
ghost use Rattle.fv_tree.specs.Flushing.{cell_changed, loaded};
ghost use Rattle.fv_tree.specs.Lookups.{load_cost, way_cost};
ghost use Rattle.fv_tree.specs.Reading.{cell_read_at};
ghost use Rattle.fv_tree.specs.Readying.{IsReady};

use crate::blocks::{Blocks, TreeFault};
use crate::kept::Tree;
use crate::way::{find, find_held};
use fv_codec::{Form, Pointer, has_form};

impl Tree {
    /// The content of the cell at `index`, and the PVBN where it was read, or 0 for one that is in memory or isn't
    /// placed yet; `None` exactly for a hole. It keeps nothing in memory and loads exactly one block for each pointer on
    /// the way that isn't a hole, of at most 3 levels and the cell, unless what it leads to changed in memory. So its
    /// look-ups are told by what lies on the disk, whatever else is in memory.
    ///
    /// # Errors
    ///
    /// As `get`.
    pub fn read<B: Blocks>(
        &self,
        blocks: &mut B,
        index: u32,
        into: &mut [u8; 4096],
    ) -> Result<Option<u32>, TreeFault>
        requires right { B.told → IsReadable (B.shown blocks.old) self.now }
        ensures cell { B.told → IfOk result (λ at. block_at (standing (under (B.shown blocks.old)) self.now) index ≡ option_map (λ (place : ℕ). into.new) at) }
        ensures place { B.told → IfOk result (λ at. (place : ℕ) → at ≡ Some place → place ≡ cell_read_at (standing (under (B.shown blocks.old)) self.now) (B.shown blocks.new) index) }
        ensures spent { B.told → OnOk result ((B.shown blocks.new).spent ≡ (B.shown blocks.old).spent + way_cost (B.shown blocks.old).cost (loaded (B.shown blocks.old) self.now) index) }
        ensures few { self.now.levels ≤ 3 }
        ensures untouched { IsUntouched (B.shown blocks.old) (B.shown blocks.new) }
        ensures reads { B.reads blocks.old blocks.new }
        ensures counts { Counts (B.shown blocks.old) (B.shown blocks.new) result }
        ensures cause { IfErr result (Fails B.told (standing (under (B.shown blocks.old)) self.now) (B.shown blocks.old) (B.shown blocks.new)) }
    {
        let pointer = find(self, blocks, index)?;
        read_stored(self, blocks, index, &pointer, into)
    }

    /// As `read`, but a node or the cell is taken from memory wherever it is there: a cell that is ready is read without a
    /// fault. How many look-ups it makes isn't told.
    ///
    /// # Errors
    ///
    /// As `get`.
    pub fn read_held<B: Blocks>(
        &self,
        blocks: &mut B,
        index: u32,
        into: &mut [u8; 4096],
    ) -> Result<Option<u32>, TreeFault>
        requires right { B.told → HasRightPlaces (B.shown blocks.old) self.now }
        ensures cell { B.told → IfOk result (λ at. block_at (standing (under (B.shown blocks.old)) self.now) index ≡ option_map (λ (place : ℕ). into.new) at) }
        ensures place { B.told → IfOk result (λ at. (place : ℕ) → at ≡ Some place → place ≡ cell_read_at (standing (under (B.shown blocks.old)) self.now) (B.shown blocks.new) index) }
        ensures few { self.now.levels ≤ 3 }
        ensures held { IsReady self.now index → OnErr result ⊥ }
        ensures untouched { IsUntouched (B.shown blocks.old) (B.shown blocks.new) }
        ensures reads { B.reads blocks.old blocks.new }
        ensures counts { Counts (B.shown blocks.old) (B.shown blocks.new) result }
        ensures cause { IfErr result (Fails B.told (standing (under (B.shown blocks.old)) self.now) (B.shown blocks.old) (B.shown blocks.new)) }
    {
        let pointer = find_held(self, blocks, index)?;
        read_pointed(self, blocks, index, &pointer, into)
    }

    /// As `read`, and tells whether the cell's block has a form: whether it spells a node, or an inode block. For a hole
    /// and at `Err` `has` is open.
    ///
    /// # Errors
    ///
    /// As `get`.
    pub fn read_as<B: Blocks>(
        &self,
        blocks: &mut B,
        index: u32,
        form: Form,
        into: &mut [u8; 4096],
        has: &mut bool,
    ) -> Result<Option<u32>, TreeFault>
        requires right { B.told → IsReadable (B.shown blocks.old) self.now }
        ensures cell { B.told → IfOk result (λ at. block_at (standing (under (B.shown blocks.old)) self.now) index ≡ option_map (λ (place : ℕ). into.new) at) }
        ensures form { IfOk result (λ at. IfSome at (λ place. has.new ≡ has_form form into.new)) }
        ensures place { B.told → IfOk result (λ at. (place : ℕ) → at ≡ Some place → place ≡ cell_read_at (standing (under (B.shown blocks.old)) self.now) (B.shown blocks.new) index) }
        ensures spent { B.told → OnOk result ((B.shown blocks.new).spent ≡ (B.shown blocks.old).spent + way_cost (B.shown blocks.old).cost (loaded (B.shown blocks.old) self.now) index) }
        ensures few { self.now.levels ≤ 3 }
        ensures untouched { IsUntouched (B.shown blocks.old) (B.shown blocks.new) }
        ensures reads { B.reads blocks.old blocks.new }
        ensures counts { Counts (B.shown blocks.old) (B.shown blocks.new) result }
        ensures cause { IfErr result (Fails B.told (standing (under (B.shown blocks.old)) self.now) (B.shown blocks.old) (B.shown blocks.new)) }
    {
        let pointer = find(self, blocks, index)?;
        read_stored_as(self, blocks, index, &pointer, form, into, has)
    }
}

/// Copies the content of a cell that changed in memory, or loads its block.
fn read_stored<B: Blocks>(
    tree: &Tree,
    blocks: &mut B,
    index: u32,
    pointer: &Pointer,
    into: &mut [u8; 4096],
) -> Result<Option<u32>, TreeFault>
    requires pointer { B.told → pointer.now ≡ pointer_at (standing (under (B.shown blocks.old)) tree.now) 0 index }
    requires right { B.told → IsReadable (B.shown blocks.old) tree.now }
    ensures cell { B.told → IfOk result (λ at. block_at (standing (under (B.shown blocks.old)) tree.now) index ≡ option_map (λ (place : ℕ). into.new) at) }
    ensures place { B.told → IfOk result (λ at. (place : ℕ) → at ≡ Some place → place ≡ cell_read_at (standing (under (B.shown blocks.old)) tree.now) (B.shown blocks.new) index) }
    ensures spent { OnOk result ((B.shown blocks.new).spent ≡ (B.shown blocks.old).spent + load_cost (B.shown blocks.old).cost (cell_changed (maps.get nat_cmp tree.now.cells index)) pointer.now) }
    ensures changed { cell_changed (maps.get nat_cmp tree.now.cells index) ≡ true → OnErr result ⊥ }
    ensures untouched { IsUntouched (B.shown blocks.old) (B.shown blocks.new) }
    ensures reads { B.reads blocks.old blocks.new }
    ensures counts { Counts (B.shown blocks.old) (B.shown blocks.new) result }
    ensures cause { IfErr result (PointerFails B.told (B.shown blocks.old) (B.shown blocks.new) pointer.now) }
{
    if pointer.stamp == 0 {
        return Ok(None);
    }
    if copy_changed(tree, index, into) {
        return Ok(Some(0));
    }
    let at = blocks.load(pointer, into)?;
    Ok(Some(place_read(tree, index, at)))
}

/// As `read_stored`, and tells whether the content has a form.
fn read_stored_as<B: Blocks>(
    tree: &Tree,
    blocks: &mut B,
    index: u32,
    pointer: &Pointer,
    form: Form,
    into: &mut [u8; 4096],
    has: &mut bool,
) -> Result<Option<u32>, TreeFault>
    requires pointer { B.told → pointer.now ≡ pointer_at (standing (under (B.shown blocks.old)) tree.now) 0 index }
    requires right { B.told → IsReadable (B.shown blocks.old) tree.now }
    ensures cell { B.told → IfOk result (λ at. block_at (standing (under (B.shown blocks.old)) tree.now) index ≡ option_map (λ (place : ℕ). into.new) at) }
    ensures form { IfOk result (λ at. IfSome at (λ place. has.new ≡ has_form form into.new)) }
    ensures place { B.told → IfOk result (λ at. (place : ℕ) → at ≡ Some place → place ≡ cell_read_at (standing (under (B.shown blocks.old)) tree.now) (B.shown blocks.new) index) }
    ensures spent { OnOk result ((B.shown blocks.new).spent ≡ (B.shown blocks.old).spent + load_cost (B.shown blocks.old).cost (cell_changed (maps.get nat_cmp tree.now.cells index)) pointer.now) }
    ensures changed { cell_changed (maps.get nat_cmp tree.now.cells index) ≡ true → OnErr result ⊥ }
    ensures untouched { IsUntouched (B.shown blocks.old) (B.shown blocks.new) }
    ensures reads { B.reads blocks.old blocks.new }
    ensures counts { Counts (B.shown blocks.old) (B.shown blocks.new) result }
    ensures cause { IfErr result (PointerFails B.told (B.shown blocks.old) (B.shown blocks.new) pointer.now) }
{
    if pointer.stamp == 0 {
        return Ok(None);
    }
    if copy_changed(tree, index, into) {
        *has = has_form(into, form);
        return Ok(Some(0));
    }
    let at = blocks.load_as(pointer, form, into, has)?;
    Ok(Some(place_read(tree, index, at)))
}

/// Copies the content of a cell that changed in memory; false where it didn't.
fn copy_changed(tree: &Tree, index: u32, into: &mut [u8; 4096]) -> bool
    ensures changed { result ≡ cell_changed (maps.get nat_cmp tree.now.cells index) }
    ensures cell { result ≡ true → cell_in tree.now index ≡ Some into.new }
{
    match tree.cells.get(&index) {
        Some(cell) => {
            if cell.changed {
                *into = *cell.block;
            }
            cell.changed
        }
        None => false,
    }
}

/// Where a cell was read that was loaded from a place: 0 for one that is in memory, too.
fn place_read(tree: &Tree, index: u32, at: u32) -> u32
    ensures { result ≡ cond (is_some (cell_in tree.now index)) 0 at }
{
    if tree.cells.contains_key(&index) {
        0
    } else {
        at
    }
}

/// Copies a cell's content from memory, or loads it.
#[tactic(auto, unfolding(crate::specs::Spelled::block_at))]
pub fn read_pointed<B: Blocks>(
    tree: &Tree,
    blocks: &mut B,
    index: u32,
    pointer: &Pointer,
    into: &mut [u8; 4096],
) -> Result<Option<u32>, TreeFault>
    requires pointer { B.told → pointer.now ≡ pointer_at (standing (under (B.shown blocks.old)) tree.now) 0 index }
    requires right { B.told → MayLoad (B.shown blocks.old) (is_some (cell_in tree.now index)) pointer.now }
    ensures cell { B.told → IfOk result (λ at. block_at (standing (under (B.shown blocks.old)) tree.now) index ≡ option_map (λ (place : ℕ). into.new) at) }
    ensures place { B.told → IfOk result (λ at. (place : ℕ) → at ≡ Some place → place ≡ cell_read_at (standing (under (B.shown blocks.old)) tree.now) (B.shown blocks.new) index) }
    ensures there { IfOk result (λ at. is_some at ≡ not (pointer.now.stamp == 0)) }
    ensures held { is_some (cell_in tree.now index) ≡ true → OnErr result ⊥ }
    ensures untouched { IsUntouched (B.shown blocks.old) (B.shown blocks.new) }
    ensures reads { B.reads blocks.old blocks.new }
    ensures counts { Counts (B.shown blocks.old) (B.shown blocks.new) result }
    ensures cause { IfErr result (PointerFails B.told (B.shown blocks.old) (B.shown blocks.new) pointer.now) }
{
    if pointer.stamp == 0 {
        return Ok(None);
    }
    match tree.cells.get(&index) {
        Some(cell) => {
            *into = *cell.block;
            Ok(Some(0))
        }
        None => {
            let at = blocks.load(pointer, into)?;
            Ok(Some(at))
        }
    }
}
