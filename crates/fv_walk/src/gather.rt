//! Blocks that are read and judged together.

ghost use Rattle.std.specs.Prelude.{◌≡◌, ◌<◌, ℕ, List, Option, Some, None, true, length, map, slice_index_or, IfOk, IfSome, OnOk};
ghost use Rattle.std.specs.List.{All};
ghost use Rattle.fv_disk.specs.Shown.{HasCause};
ghost use Rattle.fv_image.specs.Views.{Placed};
ghost use Rattle.fv_faults.specs.Walks.{Ground};
ghost use Rattle.fv_faults.specs.Met.{place_at};
ghost use Rattle.fv_scan.specs.declared.item.Item.{Item};
ghost use Rattle.fv_scan.specs.Judging.{judgement};
ghost use Rattle.fv_walk.specs.declared.visit.Visit.{Visit};
ghost use Rattle.fv_walk.specs.Blocks.{IsInRange};
ghost use Rattle.fv_walk.specs.Causes.{HasWalkCause};
ghost use Rattle.fv_walk.specs.Gathering.{AreBlocks, AtSlot, IsBlockOf, IsGathered, IsKindOf, IsWithin, Kept, OfRead};
ghost use Rattle.fv_walk.specs.Limiting.{IsReady};
ghost use Rattle.fv_walk.specs.Looks.{IsJudged, IsLooked};
ghost use Rattle.fv_walk.specs.Visits.{IsVisit, item_of, leads_on};

use crate::fault::WalkFault;
use crate::look::{Looked, read_item};
use crate::source::Source;
use crate::state::State;
use crate::visit::Visit;
use fv_disk::Failed;
use fv_scan::{Item, Judged, judge_all};
use std::alloc::AllocError;

/// Blocks that were read and judged together, each for one of some pointers.
#[derive(Drop)]
pub(crate) struct Gathered {
    /// For each pointer, which of the blocks was read for it.
    pub slots: Vec<Option<usize>>,
    /// The blocks.
    pub items: Vec<Item>,
    /// What is said of each.
    pub judged: Vec<Judged>,
}

impl Gathered {
    /// The block that was read for the pointer at a slot, if one was.
    pub fn at(&self, slot: usize) -> Option<Looked>
        requires slot { slot < length self.now.slots.items }
        requires within { (o : Option ℕ) → IsWithin (length self.now.items.items) (slice_index_or self.now.slots.items slot o) }
        requires judged { self.now.judged.items ≡ map judgement self.now.items.items }
        ensures judged { (v : Visit)
            → ((o : Option ℕ) → AtSlot IsKindOf self.now.items.items v (slice_index_or self.now.slots.items slot o))
            → IfSome result (IsJudged v) }
        ensures block { (g : Ground) → (v : Visit)
            → ((o : Option ℕ) → AtSlot (IsBlockOf g) self.now.items.items v (slice_index_or self.now.slots.items slot o))
            → (x : Placed) → place_at g (item_of v) ≡ Some x → IfSome result (IsLooked x) }
    {
        let slots = self.slots.as_slice();
        let Some(item) = slots[slot] else {
            return None;
        };
        let items = self.items.as_slice();
        let judged = self.judged.as_slice();
        Some(Looked {
            body: items[item].body,
            judged: judged[item],
        })
    }
}

/// Reads the blocks to which some pointers of one block lead, where they are nodes or inode blocks that the root hasn't reached, and judges
/// them in one call. Costs one read for each, and memory for as many blocks.
pub(crate) fn gather<S: Source>(
    source: &mut S,
    state: &State,
    visits: &[Visit],
) -> Result<Gathered, WalkFault>
    requires ready { IsReady state.now }
    requires visits { All (λ v. IsVisit v × IsInRange state.now.limits v) visits.now }
    ensures gathered { IfOk result (IsGathered visits.now) }
    ensures blocks { S.fits source.old → IfOk result (AreBlocks (S.volume source.old) visits.now) }
    ensures reads { S.reads source.old source.new }
    ensures cause { HasWalkCause (S.faults source.old) (S.faults source.new) result }
{
    let mut slots = Vec::new(state.alloc);
    let mut items = Vec::new(state.alloc);
    for visit in visits {
        if state.wants(visit) {
            let read = read_ahead(source, visit)?;
            keep(&mut slots, &mut items, read)?;
        } else {
            pass_over(&mut slots)?;
        }
    }
    let judged = judge_all(state.alloc, &items)?;
    Ok(Gathered {
        slots,
        items,
        judged,
    })
}

/// Puts what was read for one pointer more behind what was read before.
fn keep(
    slots: &mut Vec<Option<usize>>,
    items: &mut Vec<Item>,
    read: Option<Item>,
) -> Result<(), AllocError>
    ensures { OnOk result (Kept read slots.old.items items.old.items slots.new.items items.new.items) }
{
    match read {
        Some(item) => {
            slots.push(Some(items.len()))?;
            items.push(item)?;
            Ok(())
        }
        None => {
            slots.push(None)?;
            Ok(())
        }
    }
}

/// Marks that nothing was read for one pointer more.
fn pass_over(slots: &mut Vec<Option<usize>>) -> Result<(), AllocError>
    ensures { OnOk result ((items : List Item) → Kept None slots.old.items items slots.new.items items) }
{
    slots.push(None)?;
    Ok(())
}

/// Reads the block to which a pointer leads, where it is found.
fn read_ahead<S: Source>(source: &mut S, visit: &Visit) -> Result<Option<Item>, Failed>
    requires visit { IsVisit visit.now }
    requires leads { leads_on visit.now ≡ true }
    ensures kind { IfOk result (OfRead IsKindOf visit.now) }
    ensures block { S.fits source.old → IfOk result (OfRead (IsBlockOf (S.volume source.old)) visit.now) }
    ensures reads { S.reads source.old source.new }
    ensures cause { HasCause (S.faults source.old) (S.faults source.new) result }
{
    let Some(found) = source.find(visit.pointer.vvbn) else {
        return Ok(None);
    };
    let item = read_item(source, visit, &found)?;
    Ok(Some(item))
}
