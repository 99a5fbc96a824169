//! Making a snapshot's table the active one.

ghost use Rattle.std.specs.Prelude.{◌≤◌, ◌^◌};
ghost use Rattle.fv_volume.specs.OneVolume.{IsReady};
ghost use Rattle.fv_snapshot.specs.Restoring.{Restores};

use fv_disk::Disk;
use fv_model::{Name, Refusal};
use fv_volume::{Pool, VolumeFault, VolumeState};

/// Makes the table of the snapshot of a name the active one. What changed of the files since is forgotten; the count of changes and all
/// snapshots stay. A block that no snapshot has is freed in the volume, and in the aggregate by a later consistency point.
///
/// # Errors
/// `Refused` as the machine refuses `snap restore` where no file of a table has a reserve: no snapshot has the name; nothing changes then.
/// No other error comes.
///
/// Costs a step for each word of 64 numbers of each used slot, whatever the number of files, and takes no memory.
pub fn restore<D: Disk>(
    volume: &mut VolumeState,
    pool: &Pool,
    disk: &D,
    others: u64,
    name: &Name,
) -> Result<(), VolumeFault>
    requires ready { IsReady (D.shown disk.now) pool.now volume.old }
    requires others { others ≤ 2 ^ 62 }
    ensures restores { Restores (D.shown disk.now) pool.now volume.old others name.now volume.new result }
    ensures ready { IsReady (D.shown disk.now) pool.now volume.new }
{
    let Some(snap) = volume.snapshots.named(name) else {
        return Err(VolumeFault::Refused(Refusal::NoSnapshot));
    };
    let (slot, table) = (snap.slot, snap.table);
    // What is known of every map is needed of this one.
    let _ = volume.map.active();
    volume.turn_to(table);
    volume.map.restore(slot);
    volume.recount();
    Ok(())
}
