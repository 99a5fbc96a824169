//! Reading a map area.

ghost use Rattle.std.specs.Prelude.{◌≡◌, ◌<◌, ◌+◌, length, IsTrue, OnOk, IfErr};
ghost use Rattle.fv_image.specs.Layout.{area_blocks};
ghost use Rattle.fv_disk.specs.DiskCalls.{OnlyReads};
ghost use Rattle.fv_disk.specs.Faults.{HasBlockCause};
ghost use Rattle.fv_root.specs.Finding.{IsInRange};
ghost use Rattle.fv_aggmap.specs.Loading.{HasRead, IsFault};

use fv_bits::BitMap;
use fv_disk::{BlockFault, Disk, ZERO};
use fv_root::{Found, area_blocks, area_place};

/// Reads the map area of the root that was found into a set with a number for each block.
pub(crate) fn read_area<D: Disk>(
    disk: &mut D,
    found: &Found,
    into: &mut BitMap,
) -> Result<(), BlockFault>
    requires range { IsInRange found.now }
    requires len { length into.old ≡ found.now.blocks }
    ensures read { IsTrue (D.shown disk.old).tells
        → OnOk result (HasRead (D.shown disk.old).reads found.now (area_blocks found.now.blocks) into.new) }
    ensures len { length into.new ≡ length into.old }
    ensures fault { IsTrue (D.shown disk.old).tells → IfErr result (IsFault (D.shown disk.old).reads found.now) }
    ensures only_reads { OnlyReads (D.shown disk.old) (D.shown disk.new) }
    ensures cause { HasBlockCause (D.shown disk.old).faults (D.shown disk.new).faults result }
{
    for k in 0..area_blocks(found.blocks) {
        read_map_block(disk, found, into, k)?;
    }
    Ok(())
}

/// Reads one block of the map area.
fn read_map_block<D: Disk>(
    disk: &mut D,
    found: &Found,
    into: &mut BitMap,
    k: u32,
) -> Result<(), BlockFault>
    requires range { IsInRange found.now }
    requires len { length into.old ≡ found.now.blocks }
    requires within { k < area_blocks found.now.blocks }
    ensures len { length into.new ≡ length into.old }
    ensures read { IsTrue (D.shown disk.old).tells
        → HasRead (D.shown disk.old).reads found.now k into.old
        → OnOk result (HasRead (D.shown disk.old).reads found.now (k + 1) into.new) }
    ensures fault { IsTrue (D.shown disk.old).tells
        → HasRead (D.shown disk.old).reads found.now k into.old
        → IfErr result (IsFault (D.shown disk.old).reads found.now) }
    ensures only_reads { OnlyReads (D.shown disk.old) (D.shown disk.new) }
    ensures cause { HasBlockCause (D.shown disk.old).faults (D.shown disk.new).faults result }
{
    let mut block = ZERO;
    let at = area_place(found.blocks, found.slot, k);
    disk.read(at, &mut block)?;
    match into.from_block(k, &block) {
        None => Ok(()),
        Some(number) => Err(BlockFault::Damaged {
            at,
            want: u64::from(found.blocks) - 1,
            found: u64::from(number),
        }),
    }
}
