//! Rule 8: the aggregate map.

ghost use Rattle.std.specs.Prelude.{◌≡◌, ◌<◌, IsTrue, None, length, OnOk};
ghost use Rattle.fv_image.specs.Held.{layout_at};
ghost use Rattle.fv_image.specs.Layout.{area_blocks, area_place};
ghost use Rattle.fv_root.specs.Finding.{IsInRange, root_found};
ghost use Rattle.fv_faults.specs.Adding.{Adds};
ghost use Rattle.fv_faults.specs.ThirdPass.{map_lines};
ghost use Rattle.fv_first_pass.specs.Causes.{HasRead};
ghost use Rattle.fv_third_pass.specs.Bits.{area_to, differing};
ghost use Rattle.fv_third_pass.specs.Counted.{IsCounted};

use crate::bits::{Saying, note_block};
use crate::holders::Holders;
use fv_disk::{Disk, ZERO};
use fv_faults::Lines;
use fv_first_pass::CheckFault;
use fv_root::{Found, area_blocks, area_place};

/// By rule 8 bit b of the map is that of block b.
const SAYING: Saying = Saying { rule: 8, at: None };

/// Notes the lines of one block of the map.
fn note_map_block<D: Disk>(
    disk: &mut D,
    found: &Found,
    holders: &Holders,
    k: u32,
    lines: &mut Lines,
) -> Result<(), CheckFault>
    requires range { IsInRange found.now }
    requires size { length holders.now.held ≡ found.now.blocks }
    requires within { k < area_blocks found.now.blocks }
    ensures adds { IsTrue (D.shown disk.old).tells
        → OnOk result (Adds (differing 8 None holders.now.held k ((D.shown disk.old).reads (area_place found.now.blocks found.now.slot k)))
        lines.old lines.new) }
    ensures read { HasRead (D.shown disk.old) (D.shown disk.new) result }
{
    let mut block = ZERO;
    disk.read(area_place(found.blocks, found.slot, k), &mut block)?;
    note_block(lines, SAYING, &holders.held, k, &block)?;
    Ok(())
}

/// Notes those of all blocks of the map.
#[tactic(auto, using(fv_disk::proofs::Resting::reads_then))]
fn note_area<D: Disk>(
    disk: &mut D,
    found: &Found,
    holders: &Holders,
    lines: &mut Lines,
) -> Result<(), CheckFault>
    requires range { IsInRange found.now }
    requires size { length holders.now.held ≡ found.now.blocks }
    ensures adds { IsTrue (D.shown disk.old).tells
        → OnOk result (Adds (area_to (root_found found.now) (D.shown disk.old).reads holders.now.held (area_blocks found.now.blocks))
        lines.old lines.new) }
    ensures read { HasRead (D.shown disk.old) (D.shown disk.new) result }
{
    for k in 0..area_blocks(found.blocks) {
        note_map_block(disk, found, holders, k, lines)?;
    }
    Ok(())
}

/// Notes a line of rule 8 for each bit of the aggregate map, to the end of its last block, that isn't set just where its block is held
/// (`docs/FORMAT.md`). `DiskFault` comes only where a read failed, `Memory` where memory was refused. It reads each block of the map once.
pub fn note_map<D: Disk>(
    disk: &mut D,
    found: &Found,
    holders: &Holders,
    lines: &mut Lines,
) -> Result<(), CheckFault>
    requires range { IsInRange found.now }
    requires size { length holders.now.held ≡ found.now.blocks }
    ensures adds { IsTrue (D.shown disk.old).tells
        → OnOk result (IsCounted (layout_at (root_found found.now) (D.shown disk.old).reads) holders.now
        → Adds (map_lines (layout_at (root_found found.now) (D.shown disk.old).reads)) lines.old lines.new) }
    ensures read { HasRead (D.shown disk.old) (D.shown disk.new) result }
{
    note_area(disk, found, holders, lines)?;
    Ok(())
}
