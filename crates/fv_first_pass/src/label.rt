//! Lines of a label by itself: its numbers, and the names of its snapshots.

ghost use Rattle.std.specs.Prelude.{◌≡◌, ◌<◌, ◌+◌, ◌++◌, get_or, flat_map, OnOk};
ghost use Rattle.fv_image.specs.Containers.{height_of};
ghost use Rattle.fv_image.specs.Views.{Snap, entry_count, head_of, snaps_from};
ghost use Rattle.fv_faults.specs.Walks.{pointer_lines};
ghost use Rattle.fv_faults.specs.FirstPass.{label_numbers};
ghost use Rattle.fv_first_pass.specs.Records.{free, snap_if};
ghost use Rattle.fv_first_pass.specs.Sites.{IsSite};

use crate::child::entry_count;
use crate::said::{bound, lead, point};
use crate::site::Site;
use fv_faults::Fault;
use std::alloc::AllocError;

/// The height of the container of a volume.
fn height_of(site: &Site) -> u64
    requires { IsSite site.now }
    ensures { result ≡ height_of (entry_count site.now.label.span) }
{
    if entry_count(site.label.span).div_ceil(256) <= 256 {
        1
    } else {
        2
    }
}

/// Lines of the pointer in a record, if a snapshot has it.
fn record_lines(found: &mut Vec<Fault>, site: &Site, at: u64, j: usize) -> Result<(), AllocError>
    requires site { IsSite site.now }
    requires record { j < 24 }
    ensures { OnOk result (found.new.items ≡ found.old.items
        ++ flat_map (λ (p : Snap). pointer_lines site.now.blocks site.now.label.span at p.table.root)
        (snap_if (1 + j) (get_or site.now.label.snapshots j free))) }
{
    if site.label.snapshots[j].name_length == 0 {
        return Ok(());
    }
    point(
        found,
        site.blocks,
        site.label.span,
        at,
        &site.label.snapshots[j].root,
    )?;
    Ok(())
}

/// Lines of the pointers in the records of snapshots.
fn records_lines(found: &mut Vec<Fault>, site: &Site, at: u64) -> Result<(), AllocError>
    requires site { IsSite site.now }
    ensures { OnOk result (found.new.items ≡ found.old.items
        ++ flat_map (λ (p : Snap). pointer_lines site.now.blocks site.now.label.span at p.table.root)
        (snaps_from 1 site.now.label.snapshots)) }
{
    for j in 0..24 {
        record_lines(found, site, at, j)?;
    }
    Ok(())
}

/// Lines of a label at `at` by its numbers, rule 2: where its container's root lies, its height, and its pointers.
#[tactic(auto, unfolding(fv_faults::specs::FirstPass::label_numbers, fv_image::specs::Views::head_of))]
pub(crate) fn number_lines(found: &mut Vec<Fault>, site: &Site, at: u64) -> Result<(), AllocError>
    requires site { IsSite site.now }
    ensures { OnOk result (found.new.items ≡ found.old.items ++ label_numbers site.now.blocks at site.now.label) }
{
    lead(found, site.blocks, at, u64::from(site.label.container))?;
    let height = height_of(site);
    bound(found, at, height, height, u64::from(site.label.height))?;
    point(found, site.blocks, site.label.span, at, &site.label.root)?;
    records_lines(found, site, at)?;
    Ok(())
}
