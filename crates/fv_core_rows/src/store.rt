//! A store of blocks over a host in memory with failing calls.

ghost use Rattle.fv_store.specs.Held.{StandsOn};

use fv_disk::{Disk, Failed};
use fv_memdisk::{Call, MemHost};
use fv_store::Store;
use std::alloc::{AllocError, Global};
use std::test::Fail;

/// The first byte of a block.
fn get<D: Disk>(store: &mut Store, disk: &mut D, pvbn: u32) -> Option<u8>
    requires { StandsOn (D.shown disk.old) store.old.pairs }
    ensures { StandsOn (D.shown disk.new) store.new.pairs }
{
    let mut block = [0; 4096];
    let answer = store.get(disk, pvbn, &mut block);
    if answer.is_ok() { Some(block[0]) } else { None }
}

/// Whether a block of this byte is written.
fn put<D: Disk>(store: &mut Store, disk: &mut D, pvbn: u32, byte: u8) -> bool
    requires { StandsOn (D.shown disk.old) store.old.pairs }
    ensures { StandsOn (D.shown disk.new) store.new.pairs }
{
    let answer = store.put(disk, pvbn, &[byte; 4096]);
    answer.is_ok()
}

/// Whether a block of this byte is written, to be held.
fn hold<D: Disk>(store: &mut Store, disk: &mut D, pvbn: u32, byte: u8) -> bool
    requires { StandsOn (D.shown disk.old) store.old.pairs }
    ensures { StandsOn (D.shown disk.new) store.new.pairs }
{
    let answer = store.put_and_hold(disk, pvbn, &[byte; 4096]);
    answer.is_ok()
}

#[tactic(auto, using(fv_store::proofs::Laws::stands_at_first))]
fn reads<D: Disk>(alloc: Global, disk: &mut D) -> Result<[Option<u8>; 5], AllocError> {
    let mut store = Store::new(alloc, 2)?;
    let first = get(&mut store, disk, 3);
    let second = get(&mut store, disk, 4);
    let third = get(&mut store, disk, 3);
    let fourth = get(&mut store, disk, 4);
    let fifth = get(&mut store, disk, 5);
    Ok([first, second, third, fourth, fifth])
}

#[tactic(auto, using(fv_store::proofs::Laws::stands_at_first))]
fn rewrites<D: Disk>(alloc: Global, disk: &mut D) -> Result<[Option<u8>; 3], AllocError> {
    let mut store = Store::new(alloc, 2)?;
    put(&mut store, disk, 7, 1);
    let first = get(&mut store, disk, 7);
    put(&mut store, disk, 7, 2);
    let second = get(&mut store, disk, 7);
    put(&mut store, disk, 7, 3);
    let third = get(&mut store, disk, 7);
    Ok([first, second, third])
}

#[tactic(auto, using(fv_store::proofs::Laws::stands_at_first))]
fn holds<D: Disk>(alloc: Global, disk: &mut D) -> Result<[Option<u8>; 3], AllocError> {
    let mut store = Store::new(alloc, 2)?;
    hold(&mut store, disk, 7, 1);
    let first = get(&mut store, disk, 7);
    hold(&mut store, disk, 7, 2);
    let second = get(&mut store, disk, 7);
    hold(&mut store, disk, 7, 3);
    let third = get(&mut store, disk, 7);
    Ok([first, second, third])
}

/// The third read of the disk fails, and it is that of block 5: the others are held by then.
#[test]
fn a_held_block_needs_no_disk(rt: HostRuntime) -> Result<(), Fail> {
    let mut host = MemHost::new(rt.alloc(), Vec::new(rt.alloc()));
    host.fail(Call::Read, 2)?;
    assert_eq!(rt;
        reads(rt.alloc(), &mut host)?,
        [Some(0), Some(0), Some(0), Some(0), None]
    );
    assert_eq!(rt; host.faults(), 1);
    Ok(())
}

/// The second read and the third write of the disk fail. The block that is read first is held, renewed
/// by a write, and read anew after a write that failed.
#[test]
fn a_write_renews_what_is_held(rt: HostRuntime) -> Result<(), Fail> {
    let mut host = MemHost::new(rt.alloc(), Vec::new(rt.alloc()));
    host.fail(Call::Read, 1)?;
    host.fail(Call::Write, 2)?;
    assert_eq!(rt; rewrites(rt.alloc(), &mut host)?, [Some(1), Some(2), None]);
    assert_eq!(rt; host.faults(), 2);
    assert_eq!(rt; host.write_faults(), 1);
    Ok(())
}

/// The first read and the third write of the disk fail. A block that is written to be held is read without the disk, until a write of it
/// fails: it is read anew then.
#[test]
fn a_block_is_held_from_its_write_on(rt: HostRuntime) -> Result<(), Fail> {
    let mut host = MemHost::new(rt.alloc(), Vec::new(rt.alloc()));
    host.fail(Call::Read, 0)?;
    host.fail(Call::Write, 2)?;
    assert_eq!(rt; holds(rt.alloc(), &mut host)?, [Some(1), Some(2), None]);
    assert_eq!(rt; host.faults(), 2);
    assert_eq!(rt; host.write_faults(), 1);
    Ok(())
}
