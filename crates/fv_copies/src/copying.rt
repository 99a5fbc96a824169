//! The loop over the numbers of a slot.

ghost use Rattle.std.specs.Prelude.{◌≡◌, ◌<◌, ◌≤◌, ◌≢◌, ◌+◌, ℕ, true, List, length, IfErr, IfOk, OnOk};
ghost use Rattle.fv_bits.specs.Members.{is_member};
ghost use Rattle.fv_container.specs.Chains.{slot_count};
ghost use Rattle.fv_disk.specs.DiskCalls.{OnlyReads};
ghost use Rattle.fv_disk.specs.Faults.{HasBlockCause};
ghost use Rattle.fv_disk.specs.declared.fault.BlockFault.TheVariants.{Damaged};
ghost use Rattle.fv_store.specs.Held.{StandsOn};
ghost use Rattle.fv_pool.specs.BlocksOver.{LeavesPool, TellsEntries};
ghost use Rattle.fv_copies.specs.Copying.{Copy, HasCopied, IsCopy, IsCopyKind, IsSource, IsUndamaged, IsWhole, IsWholeAt, HasWriteCause, LeavesTaken, content_of, copies_at, copies_below};

use crate::sink::Sink;
use fv_bits::BitMap;
use fv_disk::{Block, BlockFault, Disk, ZERO};
use fv_places::blank;
use fv_pool::{Home, Pool};

/// Copies the block under each number of a map into a sink, in ascending order, with each place in it unknown: the block of the first entry along
/// the chain of the volume, the kept one or what the store reads. The map is that of a slot of the volume, and the sink lacks all these
/// numbers. A look-up counts no step for anybody.
///
/// # Errors
/// `DiskFault` only where a disk call failed. `Damaged` only where a leaf of a container doesn't stand where it has to; where a number
/// has no entry: the place of the volume's label, 1 and 0; where a block hasn't the shape of its kind: its place, the wanted and the found
/// number of its first field that isn't as said; or as the sink says it, for want of room. `Memory` as the sink says it. What the sink took before
/// it has.
///
/// Costs a read of a block for each number, as many look-ups, what the sink takes, and a step for each number below the length of the map. Nothing is kept
/// but one block.
#[tactic(auto, using(crate::proofs::Leaving::leaves_none, crate::proofs::Leaving::leaves_then))]
pub fn copy_blocks<D: Disk, S: Sink>(
    pool: &mut Pool,
    disk: &mut D,
    source: &Home,
    map: &BitMap,
    sink: &mut S,
) -> Result<(), BlockFault>
    requires slot { source.now.slot < slot_count }
    requires lacks { (v : ℕ) → is_member map.now v ≡ true → S.lacks sink.old v }
    requires stands { StandsOn (D.shown disk.old) pool.old.store.pairs }
    ensures copied { IsSource (D.shown disk.old) pool.old source.now.slot map.now → (ts : List Copy) → S.got sink.old pool.old (content_of (D.shown disk.old)) ts
        → OnOk result (HasCopied (D.shown disk.old) pool.old source.now.slot (copies_below map.now (length map.now)) (S.got sink.new pool.new (content_of (D.shown disk.new))) ts) }
    ensures enough { IsSource (D.shown disk.old) pool.old source.now.slot map.now → IsWhole (D.shown disk.old) pool.old source.now.slot map.now
        → (ts : List Copy) → S.got sink.old pool.old (content_of (D.shown disk.old)) ts → length (copies_below map.now (length map.now)) ≤ S.room sink.old pool.old → IfErr result IsUndamaged }
    ensures leaves { LeavesTaken S.quiet (D.shown disk.old) pool.old (D.shown disk.new) pool.new }
    ensures goes { S.goes sink.old pool.old sink.new pool.new }
    ensures stands { StandsOn (D.shown disk.new) pool.new.store.pairs }
    ensures cause { HasBlockCause (D.shown disk.old).faults (D.shown disk.new).faults result }
    ensures write_cause { HasWriteCause (D.shown disk.old).write_faults (D.shown disk.new).write_faults result }
{
    for vvbn in 0..map.len() {
        copy_member(pool, disk, source, map, vvbn, sink)?;
    }
    Ok(())
}

/// Copies the block under one number into a sink, where the map has it.
#[tactic(auto, using(crate::proofs::Leaving::leaves_none, crate::proofs::Leaving::leaves_reads, crate::proofs::Leaving::leaves_then))]
fn copy_member<D: Disk, S: Sink>(
    pool: &mut Pool,
    disk: &mut D,
    source: &Home,
    map: &BitMap,
    vvbn: u32,
    sink: &mut S,
) -> Result<(), BlockFault>
    requires slot { source.now.slot < slot_count }
    requires within { vvbn < length map.now }
    requires lacks { is_member map.now vvbn ≡ true → S.lacks sink.old vvbn }
    requires stands { StandsOn (D.shown disk.old) pool.old.store.pairs }
    ensures lacks { (v : ℕ) → v ≢ vvbn → S.lacks sink.old v → S.lacks sink.new v }
    ensures copied { TellsEntries (D.shown disk.old) pool.old.containers → (ts : List Copy) → S.got sink.old pool.old (content_of (D.shown disk.old)) ts
        → OnOk result (HasCopied (D.shown disk.old) pool.old source.now.slot (copies_at map.now vvbn) (S.got sink.new pool.new (content_of (D.shown disk.new))) ts) }
    ensures room { OnOk result (S.room sink.old pool.old ≤ S.room sink.new pool.new + length (copies_at map.now vvbn)) }
    ensures enough { TellsEntries (D.shown disk.old) pool.old.containers → IsWhole (D.shown disk.old) pool.old source.now.slot map.now
        → (ts : List Copy) → S.got sink.old pool.old (content_of (D.shown disk.old)) ts → length (copies_at map.now vvbn) ≤ S.room sink.old pool.old → IfErr result IsUndamaged }
    ensures leaves { LeavesTaken S.quiet (D.shown disk.old) pool.old (D.shown disk.new) pool.new }
    ensures goes { S.goes sink.old pool.old sink.new pool.new }
    ensures stands { StandsOn (D.shown disk.new) pool.new.store.pairs }
    ensures cause { HasBlockCause (D.shown disk.old).faults (D.shown disk.new).faults result }
    ensures write_cause { HasWriteCause (D.shown disk.old).write_faults (D.shown disk.new).write_faults result }
{
    if !map.get(vvbn) {
        return Ok(());
    }
    let mut block = ZERO;
    let kind = read_blank(pool, disk, source, vvbn, &mut block)?;
    sink.take(pool, disk, vvbn, kind, &block)
}

/// Reads the block under a number and takes each place out of it, and answers its kind. At `Err` the content of `block` is open.
fn read_blank<D: Disk>(
    pool: &mut Pool,
    disk: &mut D,
    source: &Home,
    vvbn: u32,
    block: &mut Block,
) -> Result<u8, BlockFault>
    requires slot { source.now.slot < slot_count }
    requires stands { StandsOn (D.shown disk.old) pool.old.store.pairs }
    ensures copy { TellsEntries (D.shown disk.old) pool.old.containers
        → IfOk result (λ kind. IsCopy (D.shown disk.old) pool.old source.now.slot (record { vvbn = vvbn; kind = kind; block = block.new })) }
    ensures kind { IfOk result IsCopyKind }
    ensures whole { TellsEntries (D.shown disk.old) pool.old.containers → IsWholeAt (D.shown disk.old) pool.old source.now.slot vvbn → IfErr result IsUndamaged }
    ensures leaves { LeavesPool pool.old pool.new }
    ensures stands { StandsOn (D.shown disk.new) pool.new.store.pairs }
    ensures only_reads { OnlyReads (D.shown disk.old) (D.shown disk.new) }
    ensures cause { HasBlockCause (D.shown disk.old).faults (D.shown disk.new).faults result }
{
    let found = pool
        .containers
        .first_entry(&mut pool.store, disk, source.slot, vvbn)?;
    let Some(entry) = found else {
        return Err(damaged(u64::from(source.label), 1, 0));
    };
    pool.read(disk, entry.pvbn, block)?;
    if let Err(shape) = blank(entry.kind, block) {
        return Err(damaged(u64::from(entry.pvbn), shape.want, shape.found));
    }
    Ok(entry.kind)
}

/// A block isn't as it has to be.
fn damaged(at: u64, want: u64, found: u64) -> BlockFault
    ensures { result ≡ Damaged at want found }
{
    BlockFault::Damaged { at, want, found }
}
