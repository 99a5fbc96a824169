//! Trees over the blocks of one volume, over a host in memory: what is written, flushed and put on the disk is read back through a
//! cache of two blocks, and a pointer that tells no place costs one step along a chain.

ghost use Rattle.std.specs.Prelude.{◌≡◌, ◌<◌, ◌≤◌, ◌+◌, true, length, is_some, IfOk, OnOk};
ghost use Rattle.fv_tree.specs.Places.{TrustsAll};
ghost use Rattle.fv_codec.specs.Blocks.{IsPointer};
ghost use Rattle.fv_container.specs.Chains.{container_at};
ghost use Rattle.fv_image.specs.Containers.{most_entries};
ghost use Rattle.fv_root.specs.Finding.{IsInRange};
ghost use Rattle.fv_store.specs.Held.{StandsOn};
ghost use Rattle.fv_pool.specs.BlocksOver.{entries_in};

use fv_codec::Pointer;
use fv_container::{Container, Containers, Entry, Steps};
use fv_disk::{BlockFault, Disk, Failed};
use fv_memdisk::{Call, MemHost};
use fv_root::{Found, find_root, format};
use fv_store::Store;
use fv_tree::{Blocks, Tree, TreeFault};
use fv_volmap::VolMap;
use fv_volume::{Guard, Home, Noted, Pool, VolumeBlocks, read_pointed};
use std::alloc::{AllocError, Global};
use std::marker::{Brand, PhantomData};
use std::sync::ledger::{Blank, Ledger};

/// Promises nothing of content.
struct Silent;

impl Guard for Silent {
    ghost told = { ⊥ };
}

const OWNER: u64 = 5;

/// The root of a new aggregate of 1,024 blocks.
fn root_of<D: Disk>(disk: &mut D) -> Result<Found, BlockFault>
    ensures { IfOk result IsInRange }
{
    format(disk, 1024)?;
    match find_root(disk) {
        Ok(found) => Ok(found),
        Err(_) => Err(BlockFault::DiskFault),
    }
}

/// A container of holes.
fn holes(alloc: Global, entries: u32) -> Result<Container, BlockFault>
    requires few { entries ≤ most_entries }
    ensures size { IfOk result (λ container. length container.map.entries ≡ entries) }
{
    Ok(Container::new(alloc, entries)?)
}

/// Its pool, with a cache of two blocks and a container of 4,096 entries in slot 0.
#[tactic(auto, using(fv_store::proofs::Laws::stands_at_first))]
fn pool_of<D: Disk>(alloc: Global, disk: &mut D, found: Found) -> Result<Pool, BlockFault>
    requires { IsInRange found }
    ensures stands { IfOk result (λ pool. StandsOn (D.shown disk.new) pool.store.pairs) }
    ensures there { IfOk result (λ pool. is_some (container_at pool.containers 0) ≡ true) }
    ensures entries { IfOk result (λ pool. length (entries_in (container_at pool.containers 0)) ≡ 4096) }
{
    let mut pool = Pool::open(alloc, disk, found)?;
    pool.store = Store::new(alloc, 2)?;
    let container = holes(alloc, 4096)?;
    pool.containers.put(0, container, None);
    Ok(pool)
}

/// A tree of three levels with cells at 0, 128 and 16,384: its root after a flush.
#[tactic(auto, using(fv_tree::proofs::Right::trusted_tree))]
fn write_tree<B: Blocks>(alloc: Global, blocks: &mut B) -> Result<Pointer, TreeFault>
    requires right { B.told → TrustsAll B.shown }
    ensures { IfOk result IsPointer }
{
    let mut tree = Tree::new(alloc, OWNER, 0);
    tree.put(blocks, 0, &[1; 4096], 1)?;
    tree.put(blocks, 128, &[2; 4096], 2)?;
    tree.put(blocks, 16_384, &[3; 4096], 3)?;
    tree.flush(blocks, false)
}

/// The first byte of a cell over blocks of which nothing is told; 0 for a hole.
fn first_byte<B: Blocks>(tree: &mut Tree, blocks: &mut B, index: u32) -> Result<u8, TreeFault>
    requires untold { B.told → ⊥ }
{
    let mut block = [0; 4096];
    let there = tree.get(blocks, index, &mut block)?;
    if there { Ok(block[0]) } else { Ok(0) }
}

/// The first bytes of four cells of a tree of three levels, over such blocks.
fn read_tree<B: Blocks>(alloc: Global, blocks: &mut B, root: Pointer) -> Result<[u8; 4], TreeFault>
    requires untold { B.told → ⊥ }
    requires pointer { IsPointer root }
{
    let mut tree = Tree::at(alloc, OWNER, 3, root);
    Ok([
        first_byte(&mut tree, blocks, 0)?,
        first_byte(&mut tree, blocks, 128)?,
        first_byte(&mut tree, blocks, 16_384)?,
        first_byte(&mut tree, blocks, 1)?,
    ])
}

/// Writes what is kept.
fn write_kept<D: Disk>(pool: &mut Pool, disk: &mut D) -> Result<(), Failed>
    requires stands { StandsOn (D.shown disk.old) pool.old.store.pairs }
    ensures stands { StandsOn (D.shown disk.new) pool.new.store.pairs }
    ensures map { pool.new.map ≡ pool.old.map }
    ensures containers { pool.new.containers ≡ pool.old.containers }
    ensures found { pool.new.found ≡ pool.old.found }
{
    pool.write_kept(disk)
}

/// The tree is written, flushed, put on the disk, and read back.
fn written_and_read<D: Disk, L: Ledger>(
    alloc: Global,
    blocks: &mut VolumeBlocks<'_, '_, '_, '_, Silent, D, L>,
) -> Result<[u8; 4], TreeFault> {
    let root = write_tree(alloc, blocks)?;
    // What was noted speaks of the disk as it was.
    blocks.noted = Noted::NONE;
    write_kept(blocks.pool, blocks.disk)?;
    read_tree(alloc, blocks, root)
}

/// The same over a new aggregate.
fn comes_back<D: Disk, L: Ledger>(
    alloc: Global,
    disk: &mut D,
    blank: Blank,
) -> Result<[u8; 4], TreeFault>
    requires name { blank.name ≡ L.name }
    requires parts { blank.parts ≡ L.parts }
    requires some { 0 < L.parts }
{
    let mut steps: Steps<L> = Steps::open(blank);
    let found = root_of(disk)?;
    let mut pool = pool_of(alloc, disk, found)?;
    let mut map = VolMap::new(alloc, 4096)?;
    let mut blocks: VolumeBlocks<'_, '_, '_, '_, Silent, D, L> = VolumeBlocks {
        pool: &mut pool,
        disk,
        map: &mut map,
        steps: &mut steps,
        home: Home { slot: 0, label: 0 },
        room: 0,
        strays: 0,
        noted: Noted::NONE,
        of: PhantomData,
    };
    written_and_read(alloc, &mut blocks)
}

/// The same over a host of which a read fails.
fn read_back(alloc: Global, nth: u64) -> Result<[u8; 4], TreeFault> {
    let mut host = MemHost::new(alloc, Vec::new(alloc));
    host.fail(Call::Read, nth)?;
    comes_back::<MemHost, Brand>(alloc, &mut host, Blank::new(1))
}

/// Five blocks are read before the tree is; then four for each cell and three for a hole, as a cache of two blocks holds no way.
#[test]
fn each_read_fails_in_turn(rt: HostRuntime) {
    for nth in 5..20 {
        assert!(rt; read_back(rt.alloc(), nth) == Err(TreeFault::DiskFault));
    }
    assert!(rt; read_back(rt.alloc(), 20) == Ok([1, 2, 3, 0]));
}

/// A container with an entry under VVBN 4.
fn with_entry<D: Disk>(
    alloc: Global,
    store: &mut Store,
    disk: &mut D,
) -> Result<Container, BlockFault>
    requires stands { StandsOn (D.shown disk.old) store.old.pairs }
    ensures stands { StandsOn (D.shown disk.new) store.new.pairs }
{
    let mut container = Container::new(alloc, 16)?;
    let entry = Entry { pvbn: 200, kind: 1 };
    container.set(store, disk, 4, Some(entry))?;
    Ok(container)
}

/// Reads under a pointer that tells no place.
fn read_unknown<D: Disk, L: Ledger>(
    pool: &mut Pool,
    disk: &mut D,
    map: &VolMap,
    steps: &mut Steps<L>,
    vvbn: u64,
) -> Result<u32, BlockFault>
    requires { StandsOn (D.shown disk.old) pool.old.store.pairs }
    ensures stands { StandsOn (D.shown disk.new) pool.new.store.pairs }
    ensures step { OnOk result (steps.new ≡ steps.old + 1) }
{
    let home = Home { slot: 0, label: 7 };
    let pointer = Pointer {
        vvbn,
        pvbn: 0,
        stamp: 1,
    };
    let mut block = [0; 4096];
    read_pointed(pool, disk, map, steps, &home, &pointer, &mut block)
}

/// Maps of five numbers, all of them in use.
fn five_numbers(alloc: Global) -> Result<VolMap, AllocError> {
    let mut map = VolMap::new(alloc, 5)?;
    for _ in 0..5 {
        let _ = map.allocate();
    }
    Ok(map)
}

/// Where the block of VVBN 4 is read that the third container of a chain has, and the answer for VVBN 5.
fn along_the_chain<D: Disk, L: Ledger>(
    alloc: Global,
    disk: &mut D,
    blank: Blank,
) -> Result<[Result<u32, BlockFault>; 2], BlockFault>
    requires name { blank.name ≡ L.name }
    requires parts { blank.parts ≡ L.parts }
    requires some { 0 < L.parts }
{
    let mut steps: Steps<L> = Steps::open(blank);
    let found = root_of(disk)?;
    let mut pool = pool_of(alloc, disk, found)?;
    pool.containers.set_parent(0, Some(3));
    pool.containers.put(3, Container::new(alloc, 16)?, Some(9));
    let last = with_entry(alloc, &mut pool.store, disk)?;
    pool.containers.put(9, last, None);
    let map = five_numbers(alloc)?;
    let four = read_unknown(&mut pool, disk, &map, &mut steps, 4);
    let five = read_unknown(&mut pool, disk, &map, &mut steps, 5);
    Ok([four, five])
}

/// The same over a host in memory.
fn chain_answers(alloc: Global) -> Result<[Result<u32, BlockFault>; 2], BlockFault> {
    let mut host = MemHost::new(alloc, Vec::new(alloc));
    along_the_chain::<MemHost, Brand>(alloc, &mut host, Blank::new(1))
}

#[test]
fn a_chain_of_three(rt: HostRuntime) {
    let loose = BlockFault::Damaged {
        at: 7,
        want: 1,
        found: 0,
    };
    assert!(rt; chain_answers(rt.alloc()) == Ok([Ok(200), Err(loose)]));
}
