//! A consistency point of all that changed, files included.

ghost use Rattle.std.specs.Prelude.{◌≡◌, IsTrue, IfErr, OnOk, OnErr};
ghost use Rattle.fv_disk.specs.Crash.{Leaves};
ghost use Rattle.fv_model.specs.Machines.{Machine};
ghost use Rattle.fv_root.specs.Commits.{IsFoundOn};
ghost use Rattle.fv_store.specs.Held.{StandsOn};
ghost use Rattle.fv_cp.specs.Held.{IsHeld};
ghost use Rattle.fv_cp.specs.Known.{AreKnown};
ghost use Rattle.fv_cp.specs.Lent.{FitTogether};
ghost use Rattle.fv_cp.specs.Placing.{AreReady};
ghost use Rattle.fv_cp.specs.Settling.{GoesOnWhole, HaveFullRoom, IsHeldPoint, IsNoDamage, IsStill, OldOrHeld, WholeCounts, WholeFails};

use crate::placing::flush;
use crate::planning::Plan;
use crate::point::consistency_point;
use crate::preparing::prepare;
use crate::slots::known_slots;
use fv_disk::Disk;
use fv_volume::{Pool, VolumeFault};
use fv_volumes::Volumes;

/// Places what changed of the files of all volumes, writes what changed in the volumes, and makes a root count that names it: `flush`, then
/// `prepare`, and then `consistency_point`. `want` is the room in blocks that the event needs which asked for the point, and `delays` says
/// by slot of which volumes an entry may be delayed though they haven't changed.
///
/// Where that is right and as many blocks are free as are pending and all volumes ask for, a crash at any moment leaves an image that
/// stands for the machine of the last point, with each block that the root on the disk holds as it was; or one in which the new root
/// counts and that stands for the machine of the volumes with their files in memory. After `Ok` it is the latter, on a settled disk. On
/// any disk another root counts then, one generation on. No file is in memory then, and `delays` is right of the new image. Where no point
/// is done it stays.
///
/// # Errors
/// `DiskFault` comes only where a read, a write or a barrier failed in this call. Where a write or a barrier did, nothing is said of what
/// is in memory, and of images as above. After every other fault the volumes are what they were, and stand for the machine that they stood
/// for, so that they can be changed further and a later point can write them. `Damaged`, `DiskFault` and `Memory` come as in `flush` and
/// in `prepare`, before anything is written. Without a file in memory `Damaged` comes for want of blocks, or of a leaf of a container,
/// alone. Volumes that stand for a machine, with more free numbers than are pending where files are in memory, are never `Damaged` where
/// as many blocks are free as are pending and asked for, and more than are pending. Nothing is `Refused`.
///
/// Costs what the three calls cost.
pub fn full_point<D: Disk>(
    volumes: &mut Volumes,
    pool: &mut Pool,
    disk: &mut D,
    delays: &mut [bool; 64],
    want: u64,
) -> Result<(), VolumeFault>
    requires stands { StandsOn (D.shown disk.old) pool.old.store.pairs }
    requires found { IsTrue (D.shown disk.old).tells → IsFoundOn (D.shown disk.old) pool.old.found }
    requires fit { FitTogether pool.old volumes.old }
    requires ready { AreReady (D.shown disk.old) pool.old volumes.old }
    ensures any_moment { IsTrue (D.shown disk.old).tells → (before : Machine) → IsHeld (D.shown disk.old) pool.old volumes.old before → AreKnown (D.shown disk.old).reads pool.old.found delays.old → HaveFullRoom pool.old volumes.old
        → Leaves (D.shown disk.old) (D.shown disk.new) (OldOrHeld (D.shown disk.old) pool.old volumes.old before) }
    ensures point { IsTrue (D.shown disk.old).tells → (before : Machine) → IsHeld (D.shown disk.old) pool.old volumes.old before → AreKnown (D.shown disk.old).reads pool.old.found delays.old → HaveFullRoom pool.old volumes.old
        → OnOk result (IsHeldPoint (D.shown disk.old) pool.old volumes.old want (D.shown disk.new) pool.new volumes.new delays.new) }
    ensures goes_on { OnOk result (GoesOnWhole (D.shown disk.old) pool.old volumes.old (D.shown disk.new) pool.new volumes.new) }
    ensures still { IfErr result (IsStill (D.shown disk.old) pool.old volumes.old (D.shown disk.new) pool.new volumes.new) }
    ensures enough { IsTrue (D.shown disk.old).tells → (before : Machine) → IsHeld (D.shown disk.old) pool.old volumes.old before
        → HaveFullRoom pool.old volumes.old → IfErr result IsNoDamage }
    ensures counts { WholeCounts (D.shown disk.old) (D.shown disk.new) result }
    ensures fails { IfErr result (WholeFails (D.shown disk.old) pool.old volumes.old (D.shown disk.new) pool.new volumes.new) }
    ensures delays { OnErr result (delays.new ≡ delays.old) }
{
    flush(volumes, pool, disk)?;
    known_slots(&pool.containers);
    let mut plan = Plan::new();
    prepare(volumes, pool, disk, delays, want, &mut plan)?;
    consistency_point(volumes, pool, disk, &plan, delays)?;
    known_slots(&pool.containers);
    Ok(())
}
