//! What a removal of cells takes, before it is made.

ghost use Rattle.std.specs.Prelude.{◌≡◌, ◌≢◌, ◌≤◌, ◌<◌, ◌+◌, ◌-◌, ◌*◌, ◌/◌, ◌^◌, ◌&&◌, ◌||◌, not, cond, ◌==◌, ℕ, true, false, nat_le, nat_eq, IfOk, IfErr};
ghost use Rattle.fv_model.specs.Trees.{fan};
ghost use Rattle.fv_tree.specs.Places.{HasRightPlaces, IsPlaceOf};
ghost use Rattle.fv_tree.specs.Sources.{Counts, IsUntouched};
ghost use Rattle.fv_tree.specs.Standing.{standing, under, Fails};
ghost use Rattle.fv_tree.specs.Flushing.{loaded};
ghost use Rattle.fv_tree.specs.Erasing.{HoldsCells};
ghost use Rattle.fv_tree.specs.Taking.{goes_by, gone_with, AreBelow, IsPart, IsTaken};
ghost use Rattle.fv_tree.specs.Calls.{LoadsFrom};

use crate::blocks::TreeFault;
use crate::kept::Tree;
use crate::next::children_of;
use crate::sharing::Sharing;
use crate::sizes::{FAN, width};
use crate::staying::stays_at;
use fv_codec::Pointer;

/// What a removal of cells takes, in blocks.
#[derive(Clone, Copy, Debug, PartialEq, Eq)]
pub struct Taken {
    /// How many positions go: those cells, and each mark that has no cell left.
    pub gone: u32,
    /// How many blocks stay charged though their position goes or gets another stamp: those that are shared, of the cells that go
    /// and of the nodes over them.
    pub staying: u32,
}

/// Which cells of a tree go.
#[derive(Clone, Copy)]
pub enum Going {
    /// All from an index on.
    From(u32),
    /// The one at an index.
    One(u32),
}

/// What goes of a place and all places under it.
#[derive(Clone, Copy)]
pub struct Part {
    /// What is taken of them.
    pub taken: Taken,
    /// Whether one of its cells goes.
    pub some: bool,
    /// Whether one of its cells is left.
    pub left: bool,
}

impl Tree {
    /// What a removal of all cells from `from` on takes, where no mark lies over holes alone: at most 4,194,303 of both. A cell or
    /// node in memory that differs from its block doesn't stay charged. It keeps nothing in memory and loads each node over one of
    /// those cells or on the way to the border that isn't in memory once, and no content. It costs a step for each pointer of
    /// those nodes.
    ///
    /// # Errors
    ///
    /// As `get`.
    pub fn taken<B: Sharing>(&self, blocks: &mut B, from: u32) -> Result<Taken, TreeFault>
        requires right { B.told → HasRightPlaces (B.shown blocks.old) self.now }
        ensures taken { B.told → HoldsCells (standing (under (B.shown blocks.old)) self.now) → IfOk result (IsTaken (loaded (B.shown blocks.old) self.now) (B.shared blocks.old) (nat_le from)) }
        ensures few { IfOk result (AreBelow 4194304) }
        ensures untouched { IsUntouched (B.shown blocks.old) (B.shown blocks.new) }
        ensures reads { B.reads blocks.old blocks.new }
        ensures counts { Counts (B.shown blocks.old) (B.shown blocks.new) result }
        ensures cause { IfErr result (Fails B.told (standing (under (B.shown blocks.old)) self.now) (B.shown blocks.old) (B.shown blocks.new)) }
    {
        taken_in(self, blocks, Going::From(from))
    }

    /// How many positions go with the cell at `index`, where no mark lies over holes alone: the cell, and each mark over it alone;
    /// none where it is a hole, and else at most 4. It keeps nothing in memory and loads at most the nodes over the cell that
    /// aren't in memory. It costs a step for each pointer of those nodes.
    ///
    /// # Errors
    ///
    /// As `get`.
    pub fn lost<B: Sharing>(&self, blocks: &mut B, index: u32) -> Result<u32, TreeFault>
        requires right { B.told → HasRightPlaces (B.shown blocks.old) self.now }
        ensures lost { B.told → HoldsCells (standing (under (B.shown blocks.old)) self.now) → IfOk result (λ count. count ≡ gone_with (standing (under (B.shown blocks.old)) self.now) (nat_eq index)) }
        ensures few { IfOk result (λ count. count < 4194304) }
        ensures untouched { IsUntouched (B.shown blocks.old) (B.shown blocks.new) }
        ensures reads { B.reads blocks.old blocks.new }
        ensures counts { Counts (B.shown blocks.old) (B.shown blocks.new) result }
        ensures cause { IfErr result (Fails B.told (standing (under (B.shown blocks.old)) self.now) (B.shown blocks.old) (B.shown blocks.new)) }
    {
        let taken = taken_in(self, blocks, Going::One(index))?;
        Ok(taken.gone)
    }
}

/// What a removal of these cells takes.
fn taken_in<B: Sharing>(tree: &Tree, blocks: &mut B, going: Going) -> Result<Taken, TreeFault>
    requires right { B.told → HasRightPlaces (B.shown blocks.old) tree.now }
    ensures taken { B.told → HoldsCells (standing (under (B.shown blocks.old)) tree.now) → IfOk result (IsTaken (loaded (B.shown blocks.old) tree.now) (B.shared blocks.old) (goes_by going)) }
    ensures few { IfOk result (AreBelow 4194304) }
    ensures loads { LoadsFrom (B.reads blocks.old blocks.new) (Fails B.told (standing (under (B.shown blocks.old)) tree.now) (B.shown blocks.old) (B.shown blocks.new)) (B.shown blocks.old) (B.shown blocks.new) result }
{
    let part = taken_under(tree, blocks, going, tree.levels, 0, &tree.root)?;
    Ok(part.taken)
}

/// What goes of a place and all places under it, by the pointer to it.
fn taken_under<B: Sharing>(
    tree: &Tree,
    blocks: &mut B,
    going: Going,
    level: u8,
    place: u32,
    pointer: &Pointer,
) -> Result<Part, TreeFault>
    requires { IsPlaceOf B.told (B.shown blocks.old) tree.now level place pointer.now }
    ensures part { B.told → HoldsCells (standing (under (B.shown blocks.old)) tree.now) → IfOk result (IsPart (loaded (B.shown blocks.old) tree.now) (B.shared blocks.old) (goes_by going) level place) }
    ensures few { IfOk result (λ part. AreBelow (2 * fan ^ level) part.taken) }
    ensures untouched { IsUntouched (B.shown blocks.old) (B.shown blocks.new) }
    ensures reads { B.reads blocks.old blocks.new }
    ensures counts { Counts (B.shown blocks.old) (B.shown blocks.new) result }
    ensures cause { IfErr result (Fails B.told (standing (under (B.shown blocks.old)) tree.now) (B.shown blocks.old) (B.shown blocks.new)) }
{
    if pointer.stamp == 0 {
        return Ok(part_of(false, false));
    }
    if !meets(going, level, place) {
        return Ok(part_of(false, true));
    }
    let staying = stays_at(tree, blocks, level, place, pointer);
    if level == 0 {
        return Ok(with_place(&part_of(true, false), staying));
    }
    let children = children_of(tree, blocks, level, place, pointer)?;
    let mut sum = part_of(false, false);
    for slot in 0..FAN {
        let child = taken_under(
            tree,
            blocks,
            going,
            level - 1,
            place * FAN + slot,
            &children[slot as usize],
        )?;
        sum = sum_of(&sum, &child);
    }
    Ok(with_place(&sum, staying))
}

/// Whether the range of a place has an index that goes, of which more isn't asked than that.
fn meets(going: Going, level: u8, place: u32) -> bool
    requires high { level ≤ 3 }
    ensures none { result ≡ false → (i : ℕ) → i / fan ^ level ≡ place → goes_by going i ≡ false }
    ensures cell { result ≡ true → level ≡ 0 → goes_by going place ≡ true }
{
    match going {
        Going::From(from) => from / width(level) <= place,
        Going::One(index) => index / width(level) == place,
    }
}

/// Nothing that is taken, of a range that has a cell that goes, one that is left, or none of them.
fn part_of(some: bool, left: bool) -> Part
    ensures { result ≡ record { taken = record { gone = 0; staying = 0 }; some = some; left = left } }
{
    Part {
        taken: Taken {
            gone: 0,
            staying: 0,
        },
        some,
        left,
    }
}

/// What goes of both.
fn sum_of(first: &Part, second: &Part) -> Part
    requires gone { first.now.taken.gone + second.now.taken.gone < 2 ^ 32 }
    requires staying { first.now.taken.staying + second.now.taken.staying < 2 ^ 32 }
    ensures gone { result.taken.gone ≡ first.now.taken.gone + second.now.taken.gone }
    ensures staying { result.taken.staying ≡ first.now.taken.staying + second.now.taken.staying }
    ensures some { result.some ≡ (first.now.some || second.now.some) }
    ensures left { result.left ≡ (first.now.left || second.now.left) }
{
    Part {
        taken: Taken {
            gone: first.taken.gone + second.taken.gone,
            staying: first.taken.staying + second.taken.staying,
        },
        some: first.some || second.some,
        left: first.left || second.left,
    }
}

/// What goes of a place and of those under it, by what goes of these, and by how many blocks of its own would stay, one or none.
fn with_place(under: &Part, staying: u32) -> Part
    requires gone { under.now.taken.gone + 1 < 2 ^ 32 }
    requires staying { under.now.taken.staying + staying < 2 ^ 32 }
    ensures gone { result.taken.gone ≡ cond (under.now.some && not under.now.left) 1 0 + under.now.taken.gone }
    ensures staying { result.taken.staying ≡ cond under.now.some staying 0 + under.now.taken.staying }
    ensures some { result.some ≡ under.now.some }
    ensures left { result.left ≡ under.now.left }
{
    let gone = if under.some && !under.left { 1 } else { 0 };
    let staying = if under.some { staying } else { 0 };
    Part {
        taken: Taken {
            gone: gone + under.taken.gone,
            staying: staying + under.taken.staying,
        },
        ..*under
    }
}
