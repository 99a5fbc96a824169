//! Reading the container of a volume.

ghost use Rattle.std.specs.Prelude.{◌≡◌, ◌≤◌, ◌<◌, IsTrue, IfOk, OnOk};
ghost use Rattle.fv_faults.specs.Adding.{Adds};
ghost use Rattle.fv_image.specs.NewerRoot.{Taken};
ghost use Rattle.fv_image.specs.Held.{layout_at};
ghost use Rattle.fv_faults.specs.FirstPass.{node_below};
ghost use Rattle.fv_first_pass.specs.Below.{below};
ghost use Rattle.fv_first_pass.specs.Known.{HasEntries, IsLabelOf};
ghost use Rattle.fv_first_pass.specs.Causes.{HasRead};
ghost use Rattle.fv_first_pass.specs.Filled.{IsRead};
ghost use Rattle.fv_first_pass.specs.Sites.{IsSite};

use crate::child::entry_count;
use crate::fault::CheckFault;
use crate::site::{Site, Spot};
use crate::tree::read_node;
use fv_disk::Disk;
use fv_faults::Lines;
use std::alloc::Global;

/// Reads the nodes of a container, and answers its row of entries.
fn read_row<D: Disk>(
    alloc: Global,
    disk: &mut D,
    site: &Site,
    lines: &mut Lines,
) -> Result<Vec<u32>, CheckFault>
    requires site { IsSite site.now }
    requires least { 1 ≤ site.now.label.height }
    requires greatest { site.now.label.height ≤ 2 }
    ensures adds { IsTrue (D.shown disk.old).tells
        → OnOk result (Adds
        (below (D.shown disk.old).reads site.now site.now.label.height 0 site.now.label.container) lines.old lines.new) }
    ensures entries { IsTrue (D.shown disk.old).tells → IfOk result (λ row. IsRead (D.shown disk.old).reads site.now row.items) }
    ensures read { HasRead (D.shown disk.old) (D.shown disk.new) result }
{
    let count = entry_count(site.label.span) as usize;
    let mut row = Vec::from_elem(alloc, 0, count)?;
    let root = Spot {
        number: 0,
        at: site.label.container,
    };
    read_node(alloc, disk, site, site.label.height, root, lines, &mut row)?;
    Ok(row)
}

/// Reads the container of the volume whose label lies in a slot under a root: notes the lines of its nodes, rules 1, 2 and 4, and answers
/// its entries, one word for each. A word is an entry's kind times 2^24 and its place, and 0 for a hole; where there was a line the row
/// means nothing. Each node is read once, and none below one that has a line. `DiskFault` comes only where a read failed, `Memory` where
/// memory was refused. It takes four bytes for each entry, 4,197,504 at most.
pub fn read_container<D: Disk>(
    alloc: Global,
    disk: &mut D,
    site: &Site,
    lines: &mut Lines,
) -> Result<Vec<u32>, CheckFault>
    requires site { IsSite site.now }
    requires least { 1 ≤ site.now.label.height }
    requires greatest { site.now.label.height ≤ 2 }
    ensures adds { IsTrue (D.shown disk.old).tells → OnOk result ((t : Taken) → IsLabelOf t (D.shown disk.old).reads site.now
        → Adds (node_below (layout_at t (D.shown disk.old).reads) site.now.slot site.now.label site.now.label.height 0)
        lines.old lines.new) }
    ensures entries { IsTrue (D.shown disk.old).tells → IfOk result (λ row. (t : Taken) → IsLabelOf t (D.shown disk.old).reads site.now
        → HasEntries t (D.shown disk.old).reads site.now row.items) }
    ensures read { HasRead (D.shown disk.old) (D.shown disk.new) result }
{
    let row = read_row(alloc, disk, site, lines)?;
    Ok(row)
}
