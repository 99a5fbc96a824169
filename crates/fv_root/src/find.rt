//! Finding the root that counts.

ghost use Rattle.std.specs.Prelude.{◌≡◌, IsTrue, Ok, Some, IfOk, IfErr, IfSome};
ghost use Rattle.std.specs.Option.{option_map};
ghost use Rattle.fv_codec.specs.Blocks.{IsRoot, root_at};
ghost use Rattle.fv_image.specs.NewerRoot.{newer, taken_of};
ghost use Rattle.fv_root.specs.Formatted.{IsSize};
ghost use Rattle.fv_disk.specs.DiskCalls.{OnlyReads};
ghost use Rattle.fv_root.specs.Finding.{Finds, HasReadCause, IsInRange, ReadsBehind, ReadsRoot, ReadsSuper, is_older_open, root_found};

use crate::places::{SUPERBLOCK, gate_place, root_place};
use fv_codec::{Root, Super, gate_open};
use fv_disk::{Block, Disk, Failed, ZERO};

/// What stands in the fixed blocks of an aggregate.
#[derive(Clone, Copy, Debug, PartialEq, Eq)]
pub struct Found {
    /// How many blocks the aggregate has, from 512 to 1,048,576.
    pub blocks: u32,
    /// The slot, 0 or 1, whose root counts.
    pub slot: u8,
    /// The root that counts.
    pub root: Root,
    /// Whether the gate of the other slot is open, too.
    pub older_open: bool,
}

/// Why no root was found.
#[derive(Clone, Copy, Debug, PartialEq, Eq)]
pub enum RootFault {
    /// A read failed.
    DiskFault,
    /// Block 0 is no superblock, or neither gate is open.
    NotAggregate,
    /// A root behind an open gate hasn't its shape.
    Damaged {
        /// The block of the root.
        at: u64,
        /// What had to stand there, as `Shape` says.
        want: u64,
        /// What stands there.
        found: u64,
    },
}

impl From<Failed> for RootFault {
    ghost use Rattle.std.specs.Prelude.{◌≡◌};
    ghost use Rattle.fv_root.specs.declared.find.RootFault.TheVariants.{DiskFault};

    ghost from_gives = { λ _ e. e ≡ DiskFault };

    fn from(_: Failed) -> RootFault {
        RootFault::DiskFault
    }
}

/// Finds the root that counts: where one gate is open, that of its slot; where both are, the one whose
/// generation follows the other's, wrapping, or slot 0 where neither follows. `NotAggregate` comes
/// exactly where block 0 is no superblock or neither gate is open, `Damaged` exactly where a root behind
/// an open gate hasn't its shape, with the first such root, and `DiskFault` only where a read failed in
/// this call. It reads at most five blocks, changes nothing and takes no memory.
#[tactic(auto, using(fv_disk::proofs::Resting::reads_then))]
pub fn find_root<D: Disk>(disk: &mut D) -> Result<Found, RootFault>
    ensures finds { IsTrue (D.shown disk.old).tells → Finds (D.shown disk.old).reads result }
    ensures range { IfOk result IsInRange }
    ensures only_reads { OnlyReads (D.shown disk.old) (D.shown disk.new) }
    ensures cause { HasReadCause (D.shown disk.old).faults (D.shown disk.new).faults result }
{
    let blocks = read_super(disk)?;
    let first = read_root(disk, 0)?;
    let second = read_root(disk, 1)?;
    newer(blocks, first, second).ok_or(RootFault::NotAggregate)
}

/// Reads a block.
fn read_block<D: Disk>(disk: &mut D, at: u64) -> Result<Block, RootFault>
    ensures value { IsTrue (D.shown disk.old).tells → IfOk result (λ block. block ≡ (D.shown disk.old).reads at) }
    ensures only_fault { IfErr result (λ fault. fault ≡ RootFault.DiskFault) }
    ensures only_reads { OnlyReads (D.shown disk.old) (D.shown disk.new) }
    ensures cause { HasReadCause (D.shown disk.old).faults (D.shown disk.new).faults result }
{
    let mut block = ZERO;
    disk.read(at, &mut block)?;
    Ok(block)
}

#[tactic(auto, using(crate::proofs::Ranges::super_in_range))]
fn read_super<D: Disk>(disk: &mut D) -> Result<u32, RootFault>
    ensures value { IsTrue (D.shown disk.old).tells → ReadsSuper (D.shown disk.old).reads result }
    ensures size { IfOk result IsSize }
    ensures only_reads { OnlyReads (D.shown disk.old) (D.shown disk.new) }
    ensures cause { HasReadCause (D.shown disk.old).faults (D.shown disk.new).faults result }
{
    let block = read_block(disk, SUPERBLOCK)?;
    let Ok(superblock) = Super::decode(&block) else {
        return Err(RootFault::NotAggregate);
    };
    Ok(superblock.blocks)
}

/// The root behind a slot's gate, and none where the gate isn't open.
#[tactic(auto, using(fv_disk::proofs::Resting::reads_then, crate::proofs::Finding::said_in_range))]
fn read_root<D: Disk>(disk: &mut D, slot: u8) -> Result<Option<Root>, RootFault>
    ensures value { IsTrue (D.shown disk.old).tells → ReadsBehind (D.shown disk.old).reads slot result }
    ensures root { IfOk result (λ root. IfSome root IsRoot) }
    ensures only_reads { OnlyReads (D.shown disk.old) (D.shown disk.new) }
    ensures cause { HasReadCause (D.shown disk.old).faults (D.shown disk.new).faults result }
{
    let gate = read_block(disk, gate_place(slot))?;
    if !gate_open(&gate) {
        return Ok(None);
    }
    let at = root_place(slot);
    let block = read_block(disk, at)?;
    Ok(Some(root_in(&block, at)?))
}

/// The root that block number `at` spells.
fn root_in(block: &Block, at: u64) -> Result<Root, RootFault>
    ensures { ReadsRoot at (root_at block.now) result }
{
    Root::decode(block).map_err(|shape| RootFault::Damaged {
        at,
        want: shape.want,
        found: shape.found,
    })
}

/// The root that counts, of those behind the two gates.
pub(crate) fn newer(blocks: u32, first: Option<Root>, second: Option<Root>) -> Option<Found>
    ensures chosen { option_map root_found result
        ≡ taken_of (Ok (record { blocks = blocks })) (newer (option_map Ok first) (option_map Ok second)) }
    ensures older { IfSome result (λ found. found.older_open ≡ is_older_open found.slot first second) }
{
    let older_open = first.is_some() && second.is_some();
    let (slot, root) = match (first, second) {
        (None, None) => return None,
        (Some(root), None) => (0, root),
        (None, Some(root)) => (1, root),
        (Some(first), Some(second)) => later(first, second),
    };
    Some(Found {
        blocks,
        slot,
        root,
        older_open,
    })
}

/// Of two roots the one whose generation follows the other's, with its slot.
fn later(first: Root, second: Root) -> (u8, Root)
    ensures { newer (Some (Ok first)) (Some (Ok second)) ≡ Some (result.0, result.1) }
{
    if second.generation == first.generation.wrapping_add(1) {
        (1, second)
    } else {
        (0, first)
    }
}
