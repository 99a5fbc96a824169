//! What changes of the files of a volume take, and what of that stays charged because a snapshot or its base has it, before they are made.
//! Of a volume with neither nothing is read for that, since nothing stays.

ghost use Rattle.std.specs.Prelude.{◌≡◌, ◌≤◌, ◌<◌, ◌+◌, IfOk};
ghost use Rattle.fv_tree.specs.Taking.{AreBelow};
ghost use Rattle.fv_inode.specs.Files.{IsInfo};
ghost use Rattle.fv_files.specs.Calls.{AddsCell, AddsFile};
ghost use Rattle.fv_files.specs.Tables.{IsInfoOf};
ghost use Rattle.fv_pool.specs.Calls.{BlockCause, Reads};
ghost use Rattle.fv_volume.specs.Asking.{TellsActive};
ghost use Rattle.fv_volume.specs.Charging.{CostsNew, CostsPut, CutMoves, RemovalMoves, StaysByNew, StaysByPut};
ghost use Rattle.fv_pool.specs.Lending.{lent_for};
ghost use Rattle.fv_volume.specs.OneVolume.{home_in, standing_for, IsReady, IsStanding};

use crate::active::over_table;
use crate::state::VolumeState;
use fv_disk::{BlockFault, Disk};
use fv_inode::Info;
use fv_pool::{
    Pool, added_told, room_told, staying_new_told, staying_told, taken_cut_told, taken_removal_told,
};
use fv_tree::Taken;
use std::alloc::Global;

/// How many blocks that a write of a cell of the file of which this is known replaces stay charged.
#[tactic(auto, using(crate::proofs::OneVolumes::root_fits, crate::proofs::OneVolumes::levels_fit))]
pub(crate) fn count_staying<D: Disk>(
    volume: &mut VolumeState,
    alloc: Global,
    pool: &mut Pool,
    disk: &mut D,
    info: &Info,
    index: u32,
) -> Result<u32, BlockFault>
    requires ready { IsReady (D.shown disk.old) pool.old volume.old }
    requires range { IsInfo info.now }
    requires there { TellsActive (D.shown disk.old) pool.old volume.old → IsInfoOf (standing_for (D.shown disk.old) pool.old volume.old).inode info.now }
    ensures staying { IsStanding (D.shown disk.old) pool.old volume.old → IfOk result (StaysByPut (D.shown disk.old) pool.old volume.old info.now.number index) }
    ensures few { IfOk result (λ count. count ≤ 8) }
    ensures same { volume.new ≡ volume.old }
    ensures reads { Reads (D.shown disk.old) pool.old (D.shown disk.new) pool.new }
    ensures cause { BlockCause (TellsActive (D.shown disk.old) pool.old volume.old) (standing_for (D.shown disk.old) pool.old volume.old)
        (lent_for pool.old volume.old.map (D.shown disk.old) 0 (home_in volume.old) 0) (D.shown disk.new).faults result }
{
    if volume.has_one_table() {
        return Ok(0);
    }
    over_table!(volume, |alloc, pool, disk| staying_told(info, index))
}

/// How many blocks that a new file under a number, the least that is free, replaces stay charged.
#[tactic(auto, using(crate::proofs::OneVolumes::root_fits, crate::proofs::OneVolumes::levels_fit))]
pub(crate) fn count_staying_new<D: Disk>(
    volume: &mut VolumeState,
    alloc: Global,
    pool: &mut Pool,
    disk: &mut D,
    number: u32,
) -> Result<u32, BlockFault>
    requires ready { IsReady (D.shown disk.old) pool.old volume.old }
    ensures staying { IsStanding (D.shown disk.old) pool.old volume.old → IfOk result (StaysByNew (D.shown disk.old) pool.old volume.old number) }
    ensures few { IfOk result (λ count. count ≤ 4) }
    ensures same { volume.new ≡ volume.old }
    ensures reads { Reads (D.shown disk.old) pool.old (D.shown disk.new) pool.new }
    ensures cause { BlockCause (TellsActive (D.shown disk.old) pool.old volume.old) (standing_for (D.shown disk.old) pool.old volume.old)
        (lent_for pool.old volume.old.map (D.shown disk.old) 0 (home_in volume.old) 0) (D.shown disk.new).faults result }
{
    if volume.has_one_table() {
        return Ok(0);
    }
    over_table!(volume, |alloc, pool, disk| staying_new_told(number))
}

/// What a cut of the file of which this is known to a length takes, and what of that stays charged. It walks the nodes over what goes.
#[tactic(auto, using(crate::proofs::OneVolumes::root_fits, crate::proofs::OneVolumes::levels_fit))]
pub(crate) fn count_cut<D: Disk>(
    volume: &mut VolumeState,
    alloc: Global,
    pool: &mut Pool,
    disk: &mut D,
    info: &Info,
    length: u32,
) -> Result<Taken, BlockFault>
    requires ready { IsReady (D.shown disk.old) pool.old volume.old }
    requires range { IsInfo info.now }
    requires there { TellsActive (D.shown disk.old) pool.old volume.old → IsInfoOf (standing_for (D.shown disk.old) pool.old volume.old).inode info.now }
    ensures taken { IsStanding (D.shown disk.old) pool.old volume.old → IfOk result (CutMoves (D.shown disk.old) pool.old volume.old info.now.number length) }
    ensures few { IfOk result (AreBelow 8388608) }
    ensures same { volume.new ≡ volume.old }
    ensures reads { Reads (D.shown disk.old) pool.old (D.shown disk.new) pool.new }
    ensures cause { BlockCause (TellsActive (D.shown disk.old) pool.old volume.old) (standing_for (D.shown disk.old) pool.old volume.old)
        (lent_for pool.old volume.old.map (D.shown disk.old) 0 (home_in volume.old) 0) (D.shown disk.new).faults result }
{
    over_table!(volume, |alloc, pool, disk| taken_cut_told(info, length))
}

/// What the removal of the file of which this is known takes, and what of that stays charged. It walks the nodes over all of the file.
#[tactic(auto, using(crate::proofs::OneVolumes::root_fits, crate::proofs::OneVolumes::levels_fit))]
pub(crate) fn count_removal<D: Disk>(
    volume: &mut VolumeState,
    alloc: Global,
    pool: &mut Pool,
    disk: &mut D,
    info: &Info,
) -> Result<Taken, BlockFault>
    requires ready { IsReady (D.shown disk.old) pool.old volume.old }
    requires range { IsInfo info.now }
    requires there { TellsActive (D.shown disk.old) pool.old volume.old → IsInfoOf (standing_for (D.shown disk.old) pool.old volume.old).inode info.now }
    ensures taken { IsStanding (D.shown disk.old) pool.old volume.old → IfOk result (RemovalMoves (D.shown disk.old) pool.old volume.old info.now.number) }
    ensures few { IfOk result (AreBelow 8388608) }
    ensures same { volume.new ≡ volume.old }
    ensures reads { Reads (D.shown disk.old) pool.old (D.shown disk.new) pool.new }
    ensures cause { BlockCause (TellsActive (D.shown disk.old) pool.old volume.old) (standing_for (D.shown disk.old) pool.old volume.old)
        (lent_for pool.old volume.old.map (D.shown disk.old) 0 (home_in volume.old) 0) (D.shown disk.new).faults result }
{
    over_table!(volume, |alloc, pool, disk| taken_removal_told(info))
}

/// How many blocks more a volume is charged for once a cell of the file of which this is known is written: one for each position that comes, and
/// one for each block that is replaced though a snapshot has it.
#[tactic(auto, using(crate::proofs::OneVolumes::reads_then, crate::proofs::Calling::refused_ready))]
pub(crate) fn count_put<D: Disk>(
    volume: &mut VolumeState,
    alloc: Global,
    pool: &mut Pool,
    disk: &mut D,
    info: &Info,
    index: u32,
) -> Result<u32, BlockFault>
    requires ready { IsReady (D.shown disk.old) pool.old volume.old }
    requires index { index < 2097152 }
    requires range { IsInfo info.now }
    requires there { TellsActive (D.shown disk.old) pool.old volume.old → IsInfoOf (standing_for (D.shown disk.old) pool.old volume.old).inode info.now }
    ensures costs { IsStanding (D.shown disk.old) pool.old volume.old → IfOk result (CostsPut (D.shown disk.old) pool.old volume.old info.now.number index) }
    ensures few { IfOk result (λ count. count ≤ 14) }
    ensures same { volume.new ≡ volume.old }
    ensures reads { Reads (D.shown disk.old) pool.old (D.shown disk.new) pool.new }
    ensures cause { BlockCause (TellsActive (D.shown disk.old) pool.old volume.old) (standing_for (D.shown disk.old) pool.old volume.old)
        (lent_for pool.old volume.old.map (D.shown disk.old) 0 (home_in volume.old) 0) (D.shown disk.new).faults result }
{
    let added = count_added(volume, alloc, pool, disk, info, index)?;
    let staying = count_staying(volume, alloc, pool, disk, info, index)?;
    Ok(added + staying)
}

/// How many positions a write of a cell adds to the file of which this is known.
#[tactic(auto, using(crate::proofs::OneVolumes::root_fits, crate::proofs::OneVolumes::levels_fit))]
fn count_added<D: Disk>(
    volume: &mut VolumeState,
    alloc: Global,
    pool: &mut Pool,
    disk: &mut D,
    info: &Info,
    index: u32,
) -> Result<u32, BlockFault>
    requires ready { IsReady (D.shown disk.old) pool.old volume.old }
    requires index { index < 2097152 }
    requires range { IsInfo info.now }
    requires there { TellsActive (D.shown disk.old) pool.old volume.old → IsInfoOf (standing_for (D.shown disk.old) pool.old volume.old).inode info.now }
    ensures added { IsStanding (D.shown disk.old) pool.old volume.old → IfOk result (AddsCell (standing_for (D.shown disk.old) pool.old volume.old) info.now.number index) }
    ensures few { IfOk result (λ count. count ≤ 6) }
    ensures same { volume.new ≡ volume.old }
    ensures reads { Reads (D.shown disk.old) pool.old (D.shown disk.new) pool.new }
    ensures cause { BlockCause (TellsActive (D.shown disk.old) pool.old volume.old) (standing_for (D.shown disk.old) pool.old volume.old)
        (lent_for pool.old volume.old.map (D.shown disk.old) 0 (home_in volume.old) 0) (D.shown disk.new).faults result }
{
    over_table!(volume, |alloc, pool, disk| added_told(info, index))
}

/// How many blocks more a volume is charged for once it has a new file under a number, the least that is free: one for each position that comes, and
/// one for each block that is replaced though a snapshot has it.
#[tactic(auto, using(crate::proofs::OneVolumes::reads_then, crate::proofs::Calling::refused_ready))]
pub(crate) fn count_new<D: Disk>(
    volume: &mut VolumeState,
    alloc: Global,
    pool: &mut Pool,
    disk: &mut D,
    number: u32,
) -> Result<u32, BlockFault>
    requires ready { IsReady (D.shown disk.old) pool.old volume.old }
    requires number { number < 262144 }
    ensures costs { IsStanding (D.shown disk.old) pool.old volume.old → IfOk result (CostsNew (D.shown disk.old) pool.old volume.old number) }
    ensures few { IfOk result (λ count. count ≤ 14) }
    ensures same { volume.new ≡ volume.old }
    ensures reads { Reads (D.shown disk.old) pool.old (D.shown disk.new) pool.new }
    ensures cause { BlockCause (TellsActive (D.shown disk.old) pool.old volume.old) (standing_for (D.shown disk.old) pool.old volume.old)
        (lent_for pool.old volume.old.map (D.shown disk.old) 0 (home_in volume.old) 0) (D.shown disk.new).faults result }
{
    let added = count_room(volume, alloc, pool, disk, number)?;
    let staying = count_staying_new(volume, alloc, pool, disk, number)?;
    Ok(added + staying)
}

/// How many positions of the inode file a file of this number adds.
#[tactic(auto, using(crate::proofs::OneVolumes::root_fits, crate::proofs::OneVolumes::levels_fit))]
fn count_room<D: Disk>(
    volume: &mut VolumeState,
    alloc: Global,
    pool: &mut Pool,
    disk: &mut D,
    number: u32,
) -> Result<u32, BlockFault>
    requires ready { IsReady (D.shown disk.old) pool.old volume.old }
    requires number { number < 262144 }
    ensures added { IsStanding (D.shown disk.old) pool.old volume.old → IfOk result (AddsFile (standing_for (D.shown disk.old) pool.old volume.old) number) }
    ensures few { IfOk result (λ count. count ≤ 6) }
    ensures same { volume.new ≡ volume.old }
    ensures reads { Reads (D.shown disk.old) pool.old (D.shown disk.new) pool.new }
    ensures cause { BlockCause (TellsActive (D.shown disk.old) pool.old volume.old) (standing_for (D.shown disk.old) pool.old volume.old)
        (lent_for pool.old volume.old.map (D.shown disk.old) 0 (home_in volume.old) 0) (D.shown disk.new).faults result }
{
    over_table!(volume, |alloc, pool, disk| room_told(number))
}
