//! Filling in the places of one block.

ghost use Rattle.std.specs.Prelude.{◌≡◌, ◌≢◌, ◌<◌, ◌≤◌, Ok, Some, length, map, IfErr, IfOk, OnOk};
ghost use Rattle.fv_codec.specs.Blocks.{last_place};
ghost use Rattle.fv_codec.specs.declared.form.Form.TheVariants.{Node as OfNode, Inodes as OfInodes};
ghost use Rattle.fv_codec.specs.declared.inode.InodeRecord.{InodeRecord};
ghost use Rattle.fv_container.specs.Chains.{slot_count, TellsEntries};
ghost use Rattle.fv_disk.specs.DiskCalls.{OnlyReads};
ghost use Rattle.fv_disk.specs.Faults.{HasBlockCause};
ghost use Rattle.fv_image.specs.HintRules.{is_unknown};
ghost use Rattle.fv_places.specs.ByKind.{form_of, pointers_by, shape_in};
ghost use Rattle.fv_pool.specs.BlocksOver.{LeavesPool};
ghost use Rattle.fv_store.specs.Held.{StandsOn};
ghost use Rattle.fv_cleaner.specs.Filling.{ArePlaced, AreRooted, FillsBlock, FillsPlaces, FillsUpTo, LiesBelow};
ghost use Rattle.fv_cleaner.specs.Searching.{IsUndamaged, LeadBelow, LeadsBelow, lies_in};

use crate::searching::{bad_kind, bad_shape};
use fv_codec::{Form, InodeBlock, InodeRecord, Node, Pointer};
use fv_container::Entry;
use fv_disk::{Block, BlockFault, Disk};
use fv_places::{form_of, is_unknown, roots_of};
use fv_pool::{Home, Pool, find_held};
use fv_volmap::VolMap;

/// Fills in the places of a block that this entry leads to: each unknown pointer gets that of its VVBN's entry along the chain of the volume.
/// All else of the block stays.
///
/// # Errors
///
/// `Damaged` only where a VVBN isn't held or has no place, the block hasn't the shape of its kind, or what it leads to has a kind that isn't
/// below its own; or where a leaf of a container doesn't stand where it has to. `DiskFault` only where a read failed in this call. `Memory`
/// never comes. At `Err` the content of `block` is open.
///
/// Costs a look-up for each unknown pointer, 128 at most, and a decode and an encode of the block.
pub fn fill_all<D: Disk>(
    pool: &mut Pool,
    disk: &mut D,
    map: &VolMap,
    home: &Home,
    entry: &Entry,
    block: &mut Block,
) -> Result<(), BlockFault>
    requires slot { home.now.slot < slot_count }
    requires kind { 1 ≤ entry.now.kind }
    requires shaped { shape_in (form_of entry.now.kind) block.old ≡ Ok tt }
    requires stands { StandsOn (D.shown disk.old) pool.old.store.pairs }
    ensures fills { OnOk result (FillsBlock entry.now.kind block.old block.new) }
    ensures places { TellsEntries (D.shown disk.old) pool.old.containers → OnOk result (FillsPlaces (lies_in map.now pool.old home.now.slot (D.shown disk.old).reads) entry.now.kind block.old block.new) }
    ensures leaves { LeavesPool pool.old pool.new }
    ensures stands { StandsOn (D.shown disk.new) pool.new.store.pairs }
    ensures only_reads { OnlyReads (D.shown disk.old) (D.shown disk.new) }
    ensures cause { HasBlockCause (D.shown disk.old).faults (D.shown disk.new).faults result }
    ensures undamaged { TellsEntries (D.shown disk.old) pool.old.containers → LeadBelow (lies_in map.now pool.old home.now.slot (D.shown disk.old).reads) entry.now.kind (pointers_by (form_of entry.now.kind) block.old) → IfErr result IsUndamaged }
{
    match form_of(entry.kind) {
        Some(Form::Node) => fill_node(pool, disk, map, home, entry, block),
        Some(Form::Inodes) => fill_inodes(pool, disk, map, home, entry, block),
        None => Ok(()),
    }
}

/// Fills in the places of a node.
fn fill_node<D: Disk>(
    pool: &mut Pool,
    disk: &mut D,
    map: &VolMap,
    home: &Home,
    entry: &Entry,
    block: &mut Block,
) -> Result<(), BlockFault>
    requires slot { home.now.slot < slot_count }
    requires kind { 1 ≤ entry.now.kind }
    requires form { form_of entry.now.kind ≡ Some OfNode }
    requires shaped { shape_in (form_of entry.now.kind) block.old ≡ Ok tt }
    requires stands { StandsOn (D.shown disk.old) pool.old.store.pairs }
    ensures fills { OnOk result (FillsBlock entry.now.kind block.old block.new) }
    ensures places { TellsEntries (D.shown disk.old) pool.old.containers → OnOk result (FillsPlaces (lies_in map.now pool.old home.now.slot (D.shown disk.old).reads) entry.now.kind block.old block.new) }
    ensures leaves { LeavesPool pool.old pool.new }
    ensures stands { StandsOn (D.shown disk.new) pool.new.store.pairs }
    ensures only_reads { OnlyReads (D.shown disk.old) (D.shown disk.new) }
    ensures cause { HasBlockCause (D.shown disk.old).faults (D.shown disk.new).faults result }
    ensures undamaged { TellsEntries (D.shown disk.old) pool.old.containers → LeadBelow (lies_in map.now pool.old home.now.slot (D.shown disk.old).reads) entry.now.kind (pointers_by (form_of entry.now.kind) block.old) → IfErr result IsUndamaged }
{
    let mut node = match Node::decode(block) {
        Ok(node) => node,
        Err(shape) => return Err(bad_shape(entry, shape)),
    };
    fill_each(pool, disk, map, home, entry, &mut node.children)?;
    node.encode(block);
    Ok(())
}

/// Fills in the places of the roots in an inode block.
fn fill_inodes<D: Disk>(
    pool: &mut Pool,
    disk: &mut D,
    map: &VolMap,
    home: &Home,
    entry: &Entry,
    block: &mut Block,
) -> Result<(), BlockFault>
    requires slot { home.now.slot < slot_count }
    requires kind { 1 ≤ entry.now.kind }
    requires form { form_of entry.now.kind ≡ Some OfInodes }
    requires shaped { shape_in (form_of entry.now.kind) block.old ≡ Ok tt }
    requires stands { StandsOn (D.shown disk.old) pool.old.store.pairs }
    ensures fills { OnOk result (FillsBlock entry.now.kind block.old block.new) }
    ensures places { TellsEntries (D.shown disk.old) pool.old.containers → OnOk result (FillsPlaces (lies_in map.now pool.old home.now.slot (D.shown disk.old).reads) entry.now.kind block.old block.new) }
    ensures leaves { LeavesPool pool.old pool.new }
    ensures stands { StandsOn (D.shown disk.new) pool.new.store.pairs }
    ensures only_reads { OnlyReads (D.shown disk.old) (D.shown disk.new) }
    ensures cause { HasBlockCause (D.shown disk.old).faults (D.shown disk.new).faults result }
    ensures undamaged { TellsEntries (D.shown disk.old) pool.old.containers → LeadBelow (lies_in map.now pool.old home.now.slot (D.shown disk.old).reads) entry.now.kind (pointers_by (form_of entry.now.kind) block.old) → IfErr result IsUndamaged }
{
    let mut inodes = match InodeBlock::decode(block) {
        Ok(inodes) => inodes,
        Err(shape) => return Err(bad_shape(entry, shape)),
    };
    let mut roots = roots_of(&inodes.files);
    fill_each(pool, disk, map, home, entry, &mut roots)?;
    set_roots(&mut inodes.files, &roots);
    inodes.encode(block);
    Ok(())
}

/// Gives each unknown pointer of those in the block of this entry its place, one after another.
#[tactic(auto, using(crate::proofs::Lying::leaves_then, fv_disk::proofs::Resting::reads_then))]
fn fill_each<D: Disk>(
    pool: &mut Pool,
    disk: &mut D,
    map: &VolMap,
    home: &Home,
    entry: &Entry,
    pointers: &mut [Pointer],
) -> Result<(), BlockFault>
    requires slot { home.now.slot < slot_count }
    requires kind { 1 ≤ entry.now.kind }
    requires stands { StandsOn (D.shown disk.old) pool.old.store.pairs }
    ensures fills { OnOk result (FillsUpTo pointers.old (length pointers.old) pointers.new) }
    ensures places { TellsEntries (D.shown disk.old) pool.old.containers → OnOk result (ArePlaced (lies_in map.now pool.old home.now.slot (D.shown disk.old).reads) entry.now.kind pointers.old (length pointers.old) pointers.new) }
    ensures leaves { LeavesPool pool.old pool.new }
    ensures stands { StandsOn (D.shown disk.new) pool.new.store.pairs }
    ensures only_reads { OnlyReads (D.shown disk.old) (D.shown disk.new) }
    ensures cause { HasBlockCause (D.shown disk.old).faults (D.shown disk.new).faults result }
    ensures undamaged { TellsEntries (D.shown disk.old) pool.old.containers → LeadBelow (lies_in map.now pool.old home.now.slot (D.shown disk.old).reads) entry.now.kind pointers.old → IfErr result IsUndamaged }
{
    for i in 0..pointers.len() {
        if is_unknown(&pointers[i]) {
            let place = place_below(pool, disk, map, home, entry, pointers[i].vvbn)?;
            pointers[i].pvbn = u64::from(place);
        }
    }
    Ok(())
}

/// Where the block of a VVBN lies, to which the block of this entry leads.
fn place_below<D: Disk>(
    pool: &mut Pool,
    disk: &mut D,
    map: &VolMap,
    home: &Home,
    entry: &Entry,
    vvbn: u64,
) -> Result<u32, BlockFault>
    requires slot { home.now.slot < slot_count }
    requires kind { 1 ≤ entry.now.kind }
    requires stands { StandsOn (D.shown disk.old) pool.old.store.pairs }
    ensures place { TellsEntries (D.shown disk.old) pool.old.containers → IfOk result (LiesBelow (lies_in map.now pool.old home.now.slot (D.shown disk.old).reads) entry.now.kind vvbn) }
    ensures some { IfOk result (λ place. place ≢ 0) }
    ensures range { IfOk result (λ place. place ≤ last_place) }
    ensures leaves { LeavesPool pool.old pool.new }
    ensures stands { StandsOn (D.shown disk.new) pool.new.store.pairs }
    ensures only_reads { OnlyReads (D.shown disk.old) (D.shown disk.new) }
    ensures cause { HasBlockCause (D.shown disk.old).faults (D.shown disk.new).faults result }
    ensures undamaged { TellsEntries (D.shown disk.old) pool.old.containers → LeadsBelow (lies_in map.now pool.old home.now.slot (D.shown disk.old).reads) entry.now.kind vvbn → IfErr result IsUndamaged }
{
    let below = find_held(pool, disk, map, home, vvbn)?;
    let most = entry.kind - 1;
    if below.kind > most {
        return Err(bad_kind(&below, most));
    }
    Ok(below.pvbn)
}

/// Gives each record the root of its index.
fn set_roots(files: &mut [InodeRecord], roots: &[Pointer])
    requires { length roots.now ≡ length files.old }
    ensures { AreRooted files.old (length files.old) roots.now files.new }
{
    for i in 0..files.len() {
        files[i].root = roots[i];
    }
}
