//! A block that is read and judged.

ghost use Rattle.std.specs.Prelude.{◌≡◌, ◌==◌, Some, IfOk, IfSome, true};
ghost use Rattle.fv_disk.specs.Shown.{HasCause};
ghost use Rattle.fv_image.specs.Views.{Placed};
ghost use Rattle.fv_faults.specs.Met.{place_at};
ghost use Rattle.fv_walk.specs.Gathering.{IsKindOf};
ghost use Rattle.fv_walk.specs.Looks.{IsJudged, IsLooked};
ghost use Rattle.fv_walk.specs.Sources.{found_of};
ghost use Rattle.fv_walk.specs.Visits.{IsVisit, item_of, leads_on};

use crate::source::{Found, Source};
use crate::visit::Visit;
use fv_disk::{Block, Failed, ZERO};
use fv_scan::{Item, Judged, judge};

/// A block with what is said of it by itself.
#[derive(Clone, Copy)]
pub(crate) struct Looked {
    pub body: Block,
    pub judged: Judged,
}

/// Reads the block to which a pointer leads, and judges it. Costs one block.
pub(crate) fn look<S: Source>(
    source: &mut S,
    visit: &Visit,
    found: &Found,
) -> Result<Looked, Failed>
    requires visit { IsVisit visit.now }
    requires leads { leads_on visit.now ≡ true }
    ensures looked { S.fits source.old → (x : Placed) → place_at (S.volume source.old) (item_of visit.now) ≡ Some x → found.now ≡ found_of x → IfOk result (IsLooked x) }
    ensures judged { IfOk result (IsJudged visit.now) }
    ensures reads { S.reads source.old source.new }
    ensures cause { HasCause (S.faults source.old) (S.faults source.new) result }
{
    let item = read_item(source, visit, found)?;
    let judged = judge(&item);
    Ok(Looked {
        body: item.body,
        judged,
    })
}

/// The block to which a pointer leads, where it was read ahead; else it is read now. Costs one block at most.
pub(crate) fn look_unless<S: Source>(
    source: &mut S,
    visit: &Visit,
    found: &Found,
    ahead: Option<Looked>,
) -> Result<Looked, Failed>
    requires visit { IsVisit visit.now }
    requires leads { leads_on visit.now ≡ true }
    requires ahead { IfSome ahead (IsJudged visit.now) }
    ensures looked { S.fits source.old → (x : Placed) → place_at (S.volume source.old) (item_of visit.now) ≡ Some x → found.now ≡ found_of x
        → IfSome ahead (IsLooked x) → IfOk result (IsLooked x) }
    ensures judged { IfOk result (IsJudged visit.now) }
    ensures reads { S.reads source.old source.new }
    ensures cause { HasCause (S.faults source.old) (S.faults source.new) result }
{
    match ahead {
        Some(looked) => Ok(looked),
        None => look(source, visit, found),
    }
}

/// Reads the block to which a pointer leads, with the kind by which it is to be judged. Costs one block.
pub(crate) fn read_item<S: Source>(
    source: &mut S,
    visit: &Visit,
    found: &Found,
) -> Result<Item, Failed>
    requires visit { IsVisit visit.now }
    requires leads { leads_on visit.now ≡ true }
    ensures kind { IfOk result (IsKindOf visit.now) }
    ensures block { S.fits source.old → (x : Placed) → place_at (S.volume source.old) (item_of visit.now) ≡ Some x → found.now ≡ found_of x
        → IfOk result (λ item. item.body ≡ x.block) }
    ensures reads { S.reads source.old source.new }
    ensures cause { HasCause (S.faults source.old) (S.faults source.new) result }
{
    let mut body = ZERO;
    source.read(found.pvbn, &mut body)?;
    Ok(Item {
        kind: kind_of(visit),
        body,
    })
}

/// The kind of the entry that leads to the block of a position: 5 for an inode block, and another one for a node.
fn kind_of(visit: &Visit) -> u8
    requires visit { IsVisit visit.now }
    requires leads { leads_on visit.now ≡ true }
    ensures { (result == 5) ≡ (visit.now.level == 0) }
{
    if visit.owner == u64::MAX {
        visit.level + 5
    } else {
        visit.level + 1
    }
}
