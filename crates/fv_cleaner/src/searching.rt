//! The search for a block to clean, down from a root along unknown pointers alone.
//!
//! A known pointer leads to nothing unknown, and neither does a block without unknown pointers. So a search looks at the children of at most
//! six blocks, one on each level, and keeps no list of what it saw.

ghost use Rattle.std.specs.Prelude.{◌≡◌, ◌<◌, ◌≤◌, ◌+◌, Ok, IfOk, IfErr, IfSome};
ghost use Rattle.fv_container.specs.Chains.{slot_count, TellsEntries};
ghost use Rattle.fv_disk.specs.DiskCalls.{OnlyReads};
ghost use Rattle.fv_disk.specs.Faults.{HasBlockCause};
ghost use Rattle.fv_places.specs.ByKind.{form_of, pointers_by, shape_in};
ghost use Rattle.fv_pool.specs.BlocksOver.{LeavesPool};
ghost use Rattle.fv_store.specs.Held.{StandsOn};
ghost use Rattle.fv_disk.specs.declared.fault.BlockFault.TheVariants.{Damaged};
ghost use Rattle.fv_cleaner.specs.Searching.{CanFollow, IsFoundIn, IsNext, IsUnclear, IsUndamaged, LeadBelow, LeadsBelow, Looks, LooksBelow, LooksFrom, Searches, found_block, lies_in};

use fv_codec::{Node, Shape};
use fv_container::Entry;
use fv_disk::{Block, BlockFault, Disk, ZERO};
use fv_places::{first_unknown, has_unknown};
use fv_pool::{Home, Pool, find_held};
use fv_volmap::VolMap;

/// The kind of data.
const DATA: u8 = 1;
/// The kind of a node over cells, whose children are data.
const OVER_CELLS: u8 = 2;
/// The kind of a node over nodes over cells.
const OVER_NODES: u8 = 3;
/// The kind of a node over inode blocks.
const OVER_INODES: u8 = 6;
/// The kind of the topmost node of an inode file.
const TOPMOST: u8 = 7;
/// The most pointers that a block has.
const POINTERS: u32 = 128;
/// How far apart of 128 indices steps begin that follow each other: an odd number near to the golden section, which spreads them evenly.
const BY_STEPS: u64 = 79;
/// How far apart the steps before a point and those behind it begin.
const BY_POINTS: u64 = 37;

/// A block that was found, by its number and its entry.
#[derive(Clone, Copy, Debug, PartialEq, Eq)]
pub struct Found {
    /// Its VVBN.
    pub vvbn: u32,
    /// Where it lies, and its kind.
    pub entry: Entry,
}

/// Searches from a root for the block to clean next, and reads it: one that holds an unknown pointer, while what such pointers of it lead to
/// holds none. `None` where the block under the root, of VVBN `vvbn`, holds no unknown pointer.
///
/// # Errors
///
/// `Damaged` only where a VVBN isn't held or has no place, a block hasn't the shape of its kind, or a child has a kind that isn't below
/// that of the block with the pointer to it; or where a leaf of a container doesn't stand where it has to. `DiskFault` only where a read
/// failed in this call. `Memory` never comes. At `Err` the content of `into` is open.
///
/// Costs a look-up, a read and two decodes for each child that it looks at. Of a node over nodes over cells and of one over inode blocks these
/// are a few on average, since it begins at another child in each step; of another block those up to the first that isn't clean; at most they
/// are all children of a block twice, as where all are clean.
pub fn find_under<D: Disk>(
    pool: &mut Pool,
    disk: &mut D,
    map: &VolMap,
    home: &Home,
    vvbn: u64,
    into: &mut Block,
) -> Result<Option<Found>, BlockFault>
    requires slot { home.now.slot < slot_count }
    requires stands { StandsOn (D.shown disk.old) pool.old.store.pairs }
    ensures searches { TellsEntries (D.shown disk.old) pool.old.containers → IfOk result (Searches (lies_in map.now pool.old home.now.slot (D.shown disk.old).reads) vvbn into.new) }
    ensures found { IfOk result (λ found. IfSome found (λ f. IsFoundIn map.now f into.new)) }
    ensures leaves { LeavesPool pool.old pool.new }
    ensures stands { StandsOn (D.shown disk.new) pool.new.store.pairs }
    ensures only_reads { OnlyReads (D.shown disk.old) (D.shown disk.new) }
    ensures cause { HasBlockCause (D.shown disk.old).faults (D.shown disk.new).faults result }
    ensures undamaged { TellsEntries (D.shown disk.old) pool.old.containers → CanFollow (lies_in map.now pool.old home.now.slot (D.shown disk.old).reads) → LeadsBelow (lies_in map.now pool.old home.now.slot (D.shown disk.old).reads) 8 vvbn → IfErr result IsUndamaged }
{
    match look(pool, disk, map, home, vvbn, TOPMOST, into)? {
        Some(found) => Ok(Some(descend(pool, disk, map, home, found, into)?)),
        None => Ok(None),
    }
}

/// Goes down from a block that was read and holds an unknown pointer to the one to clean next.
#[tactic(auto, using(crate::proofs::Lying::leaves_then, fv_disk::proofs::Resting::reads_then))]
fn descend<D: Disk>(
    pool: &mut Pool,
    disk: &mut D,
    map: &VolMap,
    home: &Home,
    first: Found,
    into: &mut Block,
) -> Result<Found, BlockFault>
    requires slot { home.now.slot < slot_count }
    requires first { IsFoundIn map.now first into.old }
    requires stands { StandsOn (D.shown disk.old) pool.old.store.pairs }
    ensures next { TellsEntries (D.shown disk.old) pool.old.containers → IsUnclear (lies_in map.now pool.old home.now.slot (D.shown disk.old).reads) first.vvbn (found_block first into.old)
        → IfOk result (λ f. IsNext (lies_in map.now pool.old home.now.slot (D.shown disk.old).reads) f.vvbn (found_block f into.new)) }
    ensures found { IfOk result (λ f. IsFoundIn map.now f into.new) }
    ensures leaves { LeavesPool pool.old pool.new }
    ensures stands { StandsOn (D.shown disk.new) pool.new.store.pairs }
    ensures only_reads { OnlyReads (D.shown disk.old) (D.shown disk.new) }
    ensures cause { HasBlockCause (D.shown disk.old).faults (D.shown disk.new).faults result }
    ensures undamaged { TellsEntries (D.shown disk.old) pool.old.containers → CanFollow (lies_in map.now pool.old home.now.slot (D.shown disk.old).reads) → IsUnclear (lies_in map.now pool.old home.now.slot (D.shown disk.old).reads) first.vvbn (found_block first into.old) → IfErr result IsUndamaged }
{
    let mut found = first;
    for _ in 0..TOPMOST {
        let mut below = ZERO;
        let Some(next) = look_below(pool, disk, map, home, &found, into, &mut below)? else {
            return Ok(found);
        };
        found = next;
        *into = below;
    }
    Ok(found)
}

/// Reads a block that an unknown pointer of a block leads to and that holds one itself; `None` where there is none. Of a node over cells
/// nothing is read.
///
/// Steps clean the children of a node one by one, so a look that began at the first each time would pass all that are clean by now. It
/// begins elsewhere in each step, and at the first one only where it finds nothing from there on.
#[tactic(auto, using(crate::proofs::Lying::leaves_then, fv_disk::proofs::Resting::reads_then))]
fn look_below<D: Disk>(
    pool: &mut Pool,
    disk: &mut D,
    map: &VolMap,
    home: &Home,
    found: &Found,
    block: &Block,
    into: &mut Block,
) -> Result<Option<Found>, BlockFault>
    requires slot { home.now.slot < slot_count }
    requires least { 2 ≤ found.now.entry.kind }
    requires greatest { found.now.entry.kind ≤ 7 }
    requires stands { StandsOn (D.shown disk.old) pool.old.store.pairs }
    ensures looks { TellsEntries (D.shown disk.old) pool.old.containers
        → IfOk result (LooksBelow (lies_in map.now pool.old home.now.slot (D.shown disk.old).reads) found.now.entry.kind (pointers_by (form_of found.now.entry.kind) block.now) into.new) }
    ensures lower { IfOk result (λ next. IfSome next (λ n. n.entry.kind < found.now.entry.kind)) }
    ensures found { IfOk result (λ next. IfSome next (λ n. IsFoundIn map.now n into.new)) }
    ensures leaves { LeavesPool pool.old pool.new }
    ensures stands { StandsOn (D.shown disk.new) pool.new.store.pairs }
    ensures only_reads { OnlyReads (D.shown disk.old) (D.shown disk.new) }
    ensures cause { HasBlockCause (D.shown disk.old).faults (D.shown disk.new).faults result }
    ensures undamaged { TellsEntries (D.shown disk.old) pool.old.containers → CanFollow (lies_in map.now pool.old home.now.slot (D.shown disk.old).reads) → shape_in (form_of found.now.entry.kind) block.now ≡ Ok tt
        → LeadBelow (lies_in map.now pool.old home.now.slot (D.shown disk.old).reads) found.now.entry.kind (pointers_by (form_of found.now.entry.kind) block.now) → IfErr result IsUndamaged }
{
    if found.entry.kind <= OVER_CELLS {
        return Ok(None);
    }
    let start = start_in(pool, found.entry.kind, block);
    let next = look_from(pool, disk, map, home, found, block, start, into)?;
    if next.is_some() {
        return Ok(next);
    }
    look_from(pool, disk, map, home, found, block, 0, into)
}

/// Reads the first block that an unknown pointer of a block from an index on leads to and that holds one itself; `None` where there is
/// none.
#[tactic(auto, using(crate::proofs::Lying::leaves_then, fv_disk::proofs::Resting::reads_then))]
fn look_from<D: Disk>(
    pool: &mut Pool,
    disk: &mut D,
    map: &VolMap,
    home: &Home,
    found: &Found,
    block: &Block,
    start: u32,
    into: &mut Block,
) -> Result<Option<Found>, BlockFault>
    requires slot { home.now.slot < slot_count }
    requires over { 2 < found.now.entry.kind }
    requires greatest { found.now.entry.kind ≤ 7 }
    requires stands { StandsOn (D.shown disk.old) pool.old.store.pairs }
    ensures looks { TellsEntries (D.shown disk.old) pool.old.containers
        → IfOk result (LooksFrom (lies_in map.now pool.old home.now.slot (D.shown disk.old).reads) (pointers_by (form_of found.now.entry.kind) block.now) start into.new) }
    ensures lower { IfOk result (λ next. IfSome next (λ n. n.entry.kind < found.now.entry.kind)) }
    ensures found { IfOk result (λ next. IfSome next (λ n. IsFoundIn map.now n into.new)) }
    ensures leaves { LeavesPool pool.old pool.new }
    ensures stands { StandsOn (D.shown disk.new) pool.new.store.pairs }
    ensures only_reads { OnlyReads (D.shown disk.old) (D.shown disk.new) }
    ensures cause { HasBlockCause (D.shown disk.old).faults (D.shown disk.new).faults result }
    ensures undamaged { TellsEntries (D.shown disk.old) pool.old.containers → CanFollow (lies_in map.now pool.old home.now.slot (D.shown disk.old).reads) → shape_in (form_of found.now.entry.kind) block.now ≡ Ok tt
        → LeadBelow (lies_in map.now pool.old home.now.slot (D.shown disk.old).reads) found.now.entry.kind (pointers_by (form_of found.now.entry.kind) block.now) → IfErr result IsUndamaged }
{
    let most = found.entry.kind - 1;
    let mut from = start;
    for _ in 0..POINTERS {
        let (index, pointer) = match first_unknown(found.entry.kind, block, from) {
            Ok(Some(first)) => first,
            Ok(None) => return Ok(None),
            Err(shape) => return Err(bad_shape(&found.entry, shape)),
        };
        let next = look(pool, disk, map, home, pointer.vvbn, most, into)?;
        if next.is_some() {
            return Ok(next);
        }
        from = index + 1;
    }
    Ok(None)
}

/// An index at which a look at the pointers of a block of a kind begins. Any index serves. On the lowest level of nodes over nodes, and of those
/// over inode blocks, this one is another in each step and behind each point, since a step takes a free block and a point counts the root's
/// generation on; above them it is the first, so what lies under one node is cleaned before the next. An example: of a node's 79 children 40
/// are clean. A look that begins at the first passes all 40, and one that begins anywhere passes one on average, or a few where clean ones
/// stand side by side. Costs a decode.
fn start_in(pool: &Pool, kind: u8, block: &Block) -> u32 {
    if kind != OVER_NODES && kind != OVER_INODES {
        return 0;
    }
    let free = u64::from(pool.map.free_count()).wrapping_mul(BY_STEPS);
    let mixed = free.wrapping_add(pool.found.root.generation.wrapping_mul(BY_POINTS));
    let part = mixed % u64::from(POINTERS);
    u32::try_from(part.wrapping_mul(width_of(block)) / u64::from(POINTERS)).unwrap_or(0)
}

/// How many pointers a node has up to the last one that leads somewhere; none of a block that isn't a node.
fn width_of(block: &Block) -> u64 {
    let Ok(node) = Node::decode(block) else {
        return 0;
    };
    let mut width = 0;
    for index in 0..POINTERS {
        if node.children[index as usize].stamp != 0 {
            width = u64::from(index) + 1;
        }
    }
    width
}

/// Reads the block under a VVBN, of a kind at most `most`, where it holds an unknown pointer; `None` where it holds none. Data isn't read.
fn look<D: Disk>(
    pool: &mut Pool,
    disk: &mut D,
    map: &VolMap,
    home: &Home,
    vvbn: u64,
    most: u8,
    into: &mut Block,
) -> Result<Option<Found>, BlockFault>
    requires slot { home.now.slot < slot_count }
    requires most { most ≤ 7 }
    requires stands { StandsOn (D.shown disk.old) pool.old.store.pairs }
    ensures looks { TellsEntries (D.shown disk.old) pool.old.containers → IfOk result (Looks (lies_in map.now pool.old home.now.slot (D.shown disk.old).reads) vvbn into.new) }
    ensures lower { IfOk result (λ found. IfSome found (λ f. f.entry.kind ≤ most)) }
    ensures found { IfOk result (λ found. IfSome found (λ f. IsFoundIn map.now f into.new)) }
    ensures leaves { LeavesPool pool.old pool.new }
    ensures stands { StandsOn (D.shown disk.new) pool.new.store.pairs }
    ensures only_reads { OnlyReads (D.shown disk.old) (D.shown disk.new) }
    ensures cause { HasBlockCause (D.shown disk.old).faults (D.shown disk.new).faults result }
    ensures undamaged { TellsEntries (D.shown disk.old) pool.old.containers → CanFollow (lies_in map.now pool.old home.now.slot (D.shown disk.old).reads) → LeadsBelow (lies_in map.now pool.old home.now.slot (D.shown disk.old).reads) (most + 1) vvbn → IfErr result IsUndamaged }
{
    let entry = find_held(pool, disk, map, home, vvbn)?;
    if entry.kind > most {
        return Err(bad_kind(&entry, most));
    }
    if entry.kind == DATA {
        return Ok(None);
    }
    pool.read(disk, entry.pvbn, into)?;
    match has_unknown(entry.kind, into) {
        Ok(true) => Ok(Some(Found {
            vvbn: vvbn as u32,
            entry,
        })),
        Ok(false) => Ok(None),
        Err(shape) => Err(bad_shape(&entry, shape)),
    }
}

/// A block has another kind than those up to `most`.
pub(crate) fn bad_kind(entry: &Entry, most: u8) -> BlockFault
    ensures { result ≡ Damaged entry.now.pvbn most entry.now.kind }
{
    BlockFault::Damaged {
        at: u64::from(entry.pvbn),
        want: u64::from(most),
        found: u64::from(entry.kind),
    }
}

/// A block hasn't the shape of its kind.
pub(crate) fn bad_shape(entry: &Entry, shape: Shape) -> BlockFault
    ensures { result ≡ Damaged entry.now.pvbn shape.want shape.found }
{
    BlockFault::Damaged {
        at: u64::from(entry.pvbn),
        want: shape.want,
        found: shape.found,
    }
}
