//! The next cell that stands.

ghost use Rattle.std.specs.Prelude.{◌≡◌, ◌≢◌, ◌≤◌, ◌<◌, ◌-◌, ◌/◌, ◌%◌, ◌^◌, ◌⊎◌, ℕ, IfOk, IfErr, IfSome, IfNone, get_or, is_some, true, OnErr};
ghost use Rattle.fv_model.specs.Trees.{fan};
ghost use Rattle.fv_tree.specs.Places.{HasRightPlaces, MayLoad};
ghost use Rattle.fv_tree.specs.Spelled.{hole, pointers_at, pointer_at};
ghost use Rattle.fv_tree.specs.Sources.{Counts, IsUntouched};
ghost use Rattle.fv_tree.specs.Standing.{standing, under, Fails, LoadFails, node_in};
ghost use Rattle.fv_tree.specs.Seeking.{IsNextCell, IsFirstLed, IsFirstChild, Lands, IsFurther};

use crate::blocks::{Blocks, TreeFault};
use crate::kept::Tree;
use crate::sizes::{FAN, width};
use crate::way::load_node;
use fv_codec::Pointer;

/// Where the way to an index ends.
#[derive(Clone, Copy)]
pub enum Landing {
    /// At a cell, the first from that index on.
    Cell(u32),
    /// In a node that leads to no further cell: the first index past its range.
    Past(u32),
}

impl Tree {
    /// The least index from `from` on at which a cell stands, or `None`. It keeps nothing in memory, and passes over
    /// holes by the marks above them: it loads at most one block for each level on the way to the cell, and as many
    /// for each node on the way to `from` that leads to no further cell. No content of a cell is loaded.
    ///
    /// # Errors
    ///
    /// As `get`.
    pub fn next<B: Blocks>(&self, blocks: &mut B, from: u32) -> Result<Option<u32>, TreeFault>
        requires right { B.told → HasRightPlaces (B.shown blocks.old) self.now }
        ensures next { B.told → IfOk result (IsNextCell (standing (under (B.shown blocks.old)) self.now) from) }
        ensures untouched { IsUntouched (B.shown blocks.old) (B.shown blocks.new) }
        ensures reads { B.reads blocks.old blocks.new }
        ensures counts { Counts (B.shown blocks.old) (B.shown blocks.new) result }
        ensures cause { IfErr result (Fails B.told (standing (under (B.shown blocks.old)) self.now) (B.shown blocks.old) (B.shown blocks.new)) }
    {
        let end = width(self.levels);
        let mut at = from;
        while at < end {
            match walk(self, blocks, at)? {
                Landing::Cell(index) => return Ok(Some(index)),
                Landing::Past(next) => at = next,
            }
        }
        Ok(None)
    }
}

/// Goes down from the root to the first cell from an index on, as far as one node on the way leads to it.
fn walk<B: Blocks>(tree: &Tree, blocks: &mut B, from: u32) -> Result<Landing, TreeFault>
    requires within { from < fan ^ tree.now.levels }
    requires right { B.told → HasRightPlaces (B.shown blocks.old) tree.now }
    ensures lands { B.told → IfOk result (Lands (standing (under (B.shown blocks.old)) tree.now) from) }
    ensures further { IfOk result (IsFurther from) }
    ensures untouched { IsUntouched (B.shown blocks.old) (B.shown blocks.new) }
    ensures reads { B.reads blocks.old blocks.new }
    ensures counts { Counts (B.shown blocks.old) (B.shown blocks.new) result }
    ensures cause { IfErr result (Fails B.told (standing (under (B.shown blocks.old)) tree.now) (B.shown blocks.old) (B.shown blocks.new)) }
{
    if tree.root.stamp == 0 {
        return Ok(Landing::Past(width(tree.levels)));
    }
    let mut level = tree.levels;
    let mut pointer = tree.root;
    let mut at = from;
    while level > 0 {
        let first = at / width(level - 1);
        match first_child(tree, blocks, level, first, &pointer)? {
            None => return Ok(Landing::Past((first / FAN + 1) * FAN * width(level - 1))),
            Some((child, next)) => {
                at = later(at, child * width(level - 1));
                pointer = next;
            }
        }
        level -= 1;
    }
    Ok(Landing::Cell(at))
}

/// The greater of two indexes.
fn later(at: u32, start: u32) -> u32
    ensures low { at ≤ result }
    ensures start { start ≤ result }
    ensures one { (result ≡ at) ⊎ (result ≡ start) }
{
    if at < start { start } else { at }
}

/// The first range of a level from one on, under the same node, to which a pointer leads, with that pointer.
fn first_child<B: Blocks>(
    tree: &Tree,
    blocks: &mut B,
    level: u8,
    first: u32,
    pointer: &Pointer,
) -> Result<Option<(u32, Pointer)>, TreeFault>
    requires low { 1 ≤ level }
    requires high { level ≤ tree.now.levels }
    requires some { pointer.now.stamp ≢ 0 }
    requires pointer { B.told → pointer.now ≡ pointer_at (standing (under (B.shown blocks.old)) tree.now) level (first / fan) }
    requires right { B.told → HasRightPlaces (B.shown blocks.old) tree.now }
    ensures found { IfOk result (λ child. IfSome child (λ c. (first ≤ c.0) × (c.0 / fan ≡ first / fan) × (c.1.stamp ≢ 0))) }
    ensures child { B.told → IfOk result (λ child. IfSome child (λ c. IsFirstChild (standing (under (B.shown blocks.old)) tree.now) (level - 1) first c.0 c.1)) }
    ensures none { B.told → IfOk result (λ child. IfNone child ((r : ℕ) → first ≤ r → r / fan ≡ first / fan → (pointer_at (standing (under (B.shown blocks.old)) tree.now) (level - 1) r).stamp ≡ 0)) }
    ensures untouched { IsUntouched (B.shown blocks.old) (B.shown blocks.new) }
    ensures reads { B.reads blocks.old blocks.new }
    ensures counts { Counts (B.shown blocks.old) (B.shown blocks.new) result }
    ensures cause { IfErr result (Fails B.told (standing (under (B.shown blocks.old)) tree.now) (B.shown blocks.old) (B.shown blocks.new)) }
{
    let children = children_of(tree, blocks, level, first / FAN, pointer)?;
    Ok(first_led(&children, first))
}

/// The pointers of the node of a position, to which a pointer leads.
pub fn children_of<B: Blocks>(
    tree: &Tree,
    blocks: &mut B,
    level: u8,
    place: u32,
    pointer: &Pointer,
) -> Result<[Pointer; 128], TreeFault>
    requires some { pointer.now.stamp ≢ 0 }
    requires right { B.told → MayLoad (B.shown blocks.old) (is_some (node_in tree.now level place)) pointer.now }
    ensures children { B.told → IfOk result (λ xs. xs ≡ pointers_at (standing (under (B.shown blocks.old)) tree.now) level place pointer.now) }
    ensures held { is_some (node_in tree.now level place) ≡ true → OnErr result ⊥ }
    ensures untouched { IsUntouched (B.shown blocks.old) (B.shown blocks.new) }
    ensures reads { B.reads blocks.old blocks.new }
    ensures counts { Counts (B.shown blocks.old) (B.shown blocks.new) result }
    ensures cause { IfErr result (LoadFails B.told (B.shown blocks.old) (B.shown blocks.new) pointer.now) }
{
    match tree.nodes.get(&(level, place)) {
        Some(node) => Ok(node.children),
        None => {
            let node = load_node(blocks, pointer)?;
            Ok(node.children)
        }
    }
}

/// The first range from one on, under the same node, to which a pointer of the node leads, with that pointer.
fn first_led(children: &[Pointer; 128], first: u32) -> Option<(u32, Pointer)>
    ensures found { IfSome result (λ c. IsFirstLed children.now first c.0 c.1) }
    ensures none { IfNone result ((r : ℕ) → first ≤ r → r / fan ≡ first / fan → (get_or children.now (r % fan) hole).stamp ≡ 0) }
{
    let base = first / FAN * FAN;
    for slot in first % FAN..FAN {
        let pointer = children[slot as usize];
        if pointer.stamp != 0 {
            return Some((base + slot, pointer));
        }
    }
    None
}
