//! The store itself.

ghost use Rattle.std.specs.Prelude.{◌≡◌, ◌≤◌, [], true, false, cond, Some, None, IfOk, IfSome, OnOk, is_some, option_copied, option_map, nat_eq};
ghost use Rattle.fv_codec.specs.Forms.{has_form};
ghost use Rattle.fv_disk.specs.DiskCalls.{Reads, Writes};
ghost use Rattle.fv_store.specs.Held.{Held, held, Holds, IsStore, StandsOn, Gets, Puts, PutsHeld, block_at, to_front, without, Keeps, KeepsFrom, Renews};
ghost use Rattle.fv_store.specs.Boxed.{held_in, unboxed};
ghost use Rattle.std.specs.Map.{set_value};

use crate::judged::Judged;
use fv_codec::{Form, has_form};
use fv_disk::{Block, Disk, Failed};
use lru::LruCache;
use std::alloc::{AllocError, Global};
use std::marker::Model;
use std::num::NonZeroUsize;

/// The held blocks, each in a box of its own: a cache of blocks by value takes the optimizer three minutes
/// in each program.
type Cache = LruCache<u32, Box<Judged>>;

/// The blocks of a disk that were used last, at most as many as its capacity.
///
/// Contracts see the list of the held pairs of block number and block, the most recently used first,
/// and the capacity.
#[derive(Drop)]
pub struct Store {
    cache: Cache,
}

impl Model for Store {
    ghost use Rattle.fv_store.specs.Held.{Held, IsStore};
    ghost use Rattle.fv_store.specs.Boxed.{held_in};

    ghost Value = { Held };

    ghost view = { λ store. held_in store.cache };

    ghost invariant = { λ store. IsStore (held_in store.cache) };
}

impl Store {
    /// A store that holds nothing, with room for `capacity` blocks, which is at least 1. The one error is
    /// want of memory. Room is taken when blocks come. Costs one step.
    pub fn new(alloc: Global, capacity: usize) -> Result<Store, AllocError>
        requires { 1 ≤ capacity }
        ensures empty { IfOk result (λ store. store ≡ held [] capacity) }
    {
        let cache = LruCache::sparse(alloc, NonZeroUsize::new(capacity).unwrap())?;
        Ok(Store { cache })
    }

    /// Reads block `pvbn`, from the list where it is held and else from the disk. The one error is a
    /// failed read, so it never comes for a held block. Where no memory is found, the block that was read
    /// isn't held, and it is answered all the same. Costs one block.
    pub fn get<D: Disk>(&mut self, disk: &mut D, pvbn: u32, into: &mut Block) -> Result<(), Failed>
        requires stands { StandsOn (D.shown disk.old) self.old.pairs }
        ensures reads { Reads (D.shown disk.old) pvbn (D.shown disk.new) into.new result }
        ensures untouched { IfSome (block_at self.old.pairs pvbn) (λ _. disk.new ≡ disk.old) }
        ensures list { Gets self.old pvbn self.new into.new result }
        ensures stands { StandsOn (D.shown disk.new) self.new.pairs }
        ensures valid { IsStore self.new }
    {
        read_through(&mut self.cache, disk, pvbn, into)
    }

    /// As `get`, and tells whether the block has a form: whether it spells a node, or an inode block. A held block
    /// that has the form is judged once, until it is renewed. After a failed read `has` is open. Costs one block.
    pub fn get_as<D: Disk>(
        &mut self,
        disk: &mut D,
        pvbn: u32,
        form: Form,
        into: &mut Block,
        has: &mut bool,
    ) -> Result<(), Failed>
        requires stands { StandsOn (D.shown disk.old) self.old.pairs }
        ensures form { OnOk result (has.new ≡ has_form form into.new) }
        ensures reads { Reads (D.shown disk.old) pvbn (D.shown disk.new) into.new result }
        ensures untouched { IfSome (block_at self.old.pairs pvbn) (λ _. disk.new ≡ disk.old) }
        ensures list { Gets self.old pvbn self.new into.new result }
        ensures stands { StandsOn (D.shown disk.new) self.new.pairs }
        ensures valid { IsStore self.new }
    {
        judge_through(&mut self.cache, disk, pvbn, form, into, has)
    }

    /// Writes block `pvbn`. A held block is renewed, and after a failure it isn't held any more. It takes
    /// no memory, so a block that wasn't held isn't held afterwards. The one error is a failed write.
    /// Costs one block.
    pub fn put<D: Disk>(&mut self, disk: &mut D, pvbn: u32, block: &Block) -> Result<(), Failed>
        requires stands { StandsOn (D.shown disk.old) self.old.pairs }
        ensures writes { Writes (D.shown disk.old) pvbn block.now (D.shown disk.new) result }
        ensures list { Puts self.old pvbn block.now self.new result }
        ensures stands { StandsOn (D.shown disk.new) self.new.pairs }
        ensures valid { IsStore self.new }
    {
        write_through(&mut self.cache, disk, pvbn, block, false)
    }

    /// Writes block `pvbn`, and holds it from then on, where memory is found for it: so the next read of it makes no disk
    /// call. A held block is renewed, and after a failure it isn't held any more. The one error is a failed write: want of
    /// memory is none. Costs one disk call, and a box of a block where it wasn't held.
    pub fn put_and_hold<D: Disk>(
        &mut self,
        disk: &mut D,
        pvbn: u32,
        block: &Block,
    ) -> Result<(), Failed>
        requires stands { StandsOn (D.shown disk.old) self.old.pairs }
        ensures writes { Writes (D.shown disk.old) pvbn block.now (D.shown disk.new) result }
        ensures list { PutsHeld self.old pvbn block.now self.new result }
        ensures stands { StandsOn (D.shown disk.new) self.new.pairs }
        ensures valid { IsStore self.new }
    {
        write_through(&mut self.cache, disk, pvbn, block, true)
    }

    /// Holds no block below this number any more, as one that is about to be written without the store; the
    /// others stay. It takes no memory and makes no disk call. Costs a step for each number below.
    pub fn forget_before(&mut self, first: u32)
        ensures { KeepsFrom first self.old.pairs self.new.pairs }
    {
        forget_before(&mut self.cache, first);
    }
}

/// Reads a block, from the cache where it is held and else from the disk.
#[tactic(auto, using(crate::proofs::Standing::held_read, crate::proofs::Standing::stands_front, crate::proofs::Standing::stands_kept, crate::proofs::Standing::stands_read))]
fn read_through<D: Disk>(
    cache: &mut Cache,
    disk: &mut D,
    pvbn: u32,
    into: &mut Block,
) -> Result<(), Failed>
    requires valid { IsStore (held_in cache.old) }
    requires stands { StandsOn (D.shown disk.old) (unboxed cache.old.entries) }
    ensures reads { Reads (D.shown disk.old) pvbn (D.shown disk.new) into.new result }
    ensures untouched { IfSome (block_at (unboxed cache.old.entries) pvbn) (λ _. disk.new ≡ disk.old) }
    ensures list { Gets (held_in cache.old) pvbn (held_in cache.new) into.new result }
    ensures stands { StandsOn (D.shown disk.new) (unboxed cache.new.entries) }
    ensures valid { IsStore (held_in cache.new) }
{
    if take_held(cache, pvbn, into) {
        return Ok(());
    }
    disk.read(u64::from(pvbn), into)?;
    keep(cache, pvbn, into);
    Ok(())
}

/// Reads a block, and tells whether it has a form.
#[tactic(auto, using(crate::proofs::Judging::held_after))]
fn judge_through<D: Disk>(
    cache: &mut Cache,
    disk: &mut D,
    pvbn: u32,
    form: Form,
    into: &mut Block,
    has: &mut bool,
) -> Result<(), Failed>
    requires valid { IsStore (held_in cache.old) }
    requires stands { StandsOn (D.shown disk.old) (unboxed cache.old.entries) }
    ensures form { OnOk result (has.new ≡ has_form form into.new) }
    ensures reads { Reads (D.shown disk.old) pvbn (D.shown disk.new) into.new result }
    ensures untouched { IfSome (block_at (unboxed cache.old.entries) pvbn) (λ _. disk.new ≡ disk.old) }
    ensures list { Gets (held_in cache.old) pvbn (held_in cache.new) into.new result }
    ensures stands { StandsOn (D.shown disk.new) (unboxed cache.new.entries) }
    ensures valid { IsStore (held_in cache.new) }
{
    read_through(cache, disk, pvbn, into)?;
    *has = judge(cache, pvbn, form, into);
    Ok(())
}

/// Writes a block to the disk, and to the cache where it is held. Another block is held from then on where that is asked for.
#[tactic(auto, using(crate::proofs::Standing::stands_renewed, crate::proofs::Standing::stands_held, crate::proofs::Standing::stands_forgotten))]
fn write_through<D: Disk>(
    cache: &mut Cache,
    disk: &mut D,
    pvbn: u32,
    block: &Block,
    holds_new: bool,
) -> Result<(), Failed>
    requires valid { IsStore (held_in cache.old) }
    requires stands { StandsOn (D.shown disk.old) (unboxed cache.old.entries) }
    ensures writes { Writes (D.shown disk.old) pvbn block.now (D.shown disk.new) result }
    ensures list { holds_new ≡ false → Puts (held_in cache.old) pvbn block.now (held_in cache.new) result }
    ensures held { holds_new ≡ true → PutsHeld (held_in cache.old) pvbn block.now (held_in cache.new) result }
    ensures stands { StandsOn (D.shown disk.new) (unboxed cache.new.entries) }
    ensures valid { IsStore (held_in cache.new) }
{
    let written = disk.write(u64::from(pvbn), block);
    if written.is_err() {
        forget(cache, pvbn);
    } else if holds_new {
        hold(cache, pvbn, block);
    } else {
        renew(cache, pvbn, block);
    }
    written
}

/// Copies a block, if there is one, and tells whether there is.
fn copy_block(from: Option<&Box<Judged>>, into: &mut Block) -> bool
    ensures { option_map (λ block. block.value) (option_copied from.entry) ≡ cond result (Some into.new) None }
{
    match from {
        Some(block) => {
            block.copy(into);
            true
        }
        None => false,
    }
}

/// Copies the block that is held under this number, which comes to the front, and tells whether there is
/// one.
#[tactic(auto, using(crate::proofs::Calls::to_front_or_not, crate::proofs::Calls::to_front_store))]
fn take_held(cache: &mut Cache, pvbn: u32, into: &mut Block) -> bool
    requires { IsStore (held_in cache.old) }
    ensures found { block_at (unboxed cache.old.entries) pvbn ≡ cond result (Some into.new) None }
    ensures front { unboxed cache.new.entries ≡ cond result (to_front (unboxed cache.old.entries) pvbn into.new) (unboxed cache.old.entries) }
    ensures capacity { cache.new.cap ≡ cache.old.cap }
    ensures valid { IsStore (held_in cache.new) }
{
    let found = copy_block(cache.peek(&pvbn), into);
    cache.promote(&pvbn);
    found
}

/// Holds a block that isn't held, at the front, where memory is found for it.
#[tactic(auto, using(crate::proofs::Calls::put_new, crate::proofs::Calls::put_new_cap, crate::proofs::Calls::kept_store))]
fn keep(cache: &mut Cache, pvbn: u32, block: &Block)
    requires valid { IsStore (held_in cache.old) }
    requires absent { block_at (unboxed cache.old.entries) pvbn ≡ None }
    ensures list { Keeps (unboxed cache.old.entries) cache.old.cap pvbn block.now (unboxed cache.new.entries) }
    ensures capacity { cache.new.cap ≡ cache.old.cap }
    ensures valid { IsStore (held_in cache.new) }
{
    if let Ok(boxed) = Box::new(*cache.allocator(), Judged::new(block)) {
        let _ = cache.put(pvbn, boxed);
    }
}

/// Whether a block is held under this number.
fn is_held(cache: &Cache, pvbn: u32) -> bool
    ensures { result ≡ is_some (block_at (unboxed cache.now.entries) pvbn) }
{
    cache.contains(&pvbn)
}

/// Holds a block at the front: a held one is renewed, and another one is kept where memory is found for it.
fn hold(cache: &mut Cache, pvbn: u32, block: &Block)
    requires { IsStore (held_in cache.old) }
    ensures list { Holds (unboxed cache.old.entries) cache.old.cap pvbn block.now (unboxed cache.new.entries) }
    ensures capacity { cache.new.cap ≡ cache.old.cap }
    ensures valid { IsStore (held_in cache.new) }
{
    if is_held(cache, pvbn) {
        renew(cache, pvbn, block);
    } else {
        keep(cache, pvbn, block);
    }
}

/// Holds the new block in place of a held one, at the front, in the box of the old one.
#[tactic(auto, using(crate::proofs::Calls::renewed, crate::proofs::Calls::renewed_store))]
fn renew(cache: &mut Cache, pvbn: u32, block: &Block)
    requires { IsStore (held_in cache.old) }
    ensures list { Renews (unboxed cache.old.entries) pvbn block.now (unboxed cache.new.entries) }
    ensures capacity { cache.new.cap ≡ cache.old.cap }
    ensures valid { IsStore (held_in cache.new) }
{
    overwrite(cache, pvbn, block);
    cache.promote(&pvbn);
}

/// Writes a block over the one that is held under this number, if there is one. The order stays.
fn overwrite(cache: &mut Cache, pvbn: u32, block: &Block)
    ensures list { unboxed cache.new.entries ≡ set_value (nat_eq pvbn) (unboxed cache.old.entries) block.now }
    ensures capacity { cache.new.cap ≡ cache.old.cap }
{
    if let Some(held) = cache.peek_mut(&pvbn) {
        held.renew(block);
    }
}

/// Whether a block has a form. Where it is held, that is judged once: the held block is marked.
fn judge(cache: &mut Cache, pvbn: u32, form: Form, block: &Block) -> bool
    requires held { IfSome (block_at (unboxed cache.old.entries) pvbn) (λ was. was ≡ block.now) }
    ensures told { result ≡ has_form form block.now }
    ensures list { unboxed cache.new.entries ≡ unboxed cache.old.entries }
    ensures capacity { cache.new.cap ≡ cache.old.cap }
{
    match cache.peek_mut(&pvbn) {
        Some(held) => held.judge(form),
        None => has_form(block, form),
    }
}

/// Holds no block below this number any more.
fn forget_before(cache: &mut Cache, first: u32)
    requires { IsStore (held_in cache.old) }
    ensures list { KeepsFrom first (unboxed cache.old.entries) (unboxed cache.new.entries) }
    ensures capacity { cache.new.cap ≡ cache.old.cap }
    ensures valid { IsStore (held_in cache.new) }
{
    for number in 0..first {
        forget(cache, number);
    }
}

/// Holds no block under this number any more.
#[tactic(auto, using(crate::proofs::Calls::popped, crate::proofs::Calls::popped_store))]
fn forget(cache: &mut Cache, pvbn: u32)
    requires { IsStore (held_in cache.old) }
    ensures list { unboxed cache.new.entries ≡ without (unboxed cache.old.entries) pvbn }
    ensures capacity { cache.new.cap ≡ cache.old.cap }
    ensures valid { IsStore (held_in cache.new) }
{
    cache.pop(&pvbn);
}
