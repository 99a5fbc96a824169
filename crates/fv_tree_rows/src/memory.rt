//! Blocks in memory, for tests of trees.

ghost use Rattle.std.specs.Prelude.{◌≡◌, ◌≤◌, IfOk, true, false, nat_lt, refl};
ghost use Rattle.std.proofs.Common.{ap, ◌∙◌};
ghost use Rattle.fv_disk.specs.Shown.{Rose};
ghost use Rattle.fv_disk.specs.declared.fault.BlockFault.TheVariants.{DiskFault};
ghost use Rattle.fv_tree_rows.specs.InMemory.{shown_in_memory, in_memory_is_source};

use fv_codec::{Form, Pointer, has_form};
use fv_tree::{Blocks, Placed, Sharing, TreeFault};
use std::alloc::{AllocError, Global};
use std::collections::BTreeMap;

/// How many VVBNs there are.
const MOST: u32 = 1_000_000;

/// A map of blocks in memory that counts its calls. The block under VVBN `v` reads at PVBN `v + 1`, and each load
/// is one look-up. With each block it keeps the PVBN that `place` answered, and its kind. No call of a tree changes
/// which VVBN is hidden, and no load which ones are shared.
#[derive(Drop)]
pub struct MemBlocks {
    blocks: BTreeMap<u32, ([u8; 4096], u32, u8)>,
    next: u32,
    faults: u64,
    fails_in: u64,
    calls: u64,
    loads: u64,
    placed: [u64; 8],
    dropped: u64,
    strays: u64,
    unknown: Option<u32>,
    shared: u32,
}

impl MemBlocks {
    /// A map without a block.
    pub fn new(alloc: Global) -> MemBlocks {
        MemBlocks {
            blocks: BTreeMap::new(alloc),
            next: 0,
            faults: 0,
            fails_in: u64::MAX,
            calls: 0,
            loads: 0,
            placed: [0; 8],
            dropped: 0,
            strays: 0,
            unknown: None,
            shared: 0,
        }
    }

    /// A copy, which shows the same.
    ///
    /// # Errors
    ///
    /// `AllocError` for want of memory.
    pub fn copy(&self) -> Result<MemBlocks, AllocError>
        ensures blocks { IfOk result (λ b. b.blocks.entries ≡ self.now.blocks.entries) }
        ensures next { IfOk result (λ b. b.next ≡ self.now.next) }
        ensures loads { IfOk result (λ b. b.loads ≡ self.now.loads) }
        ensures strays { IfOk result (λ b. b.strays ≡ self.now.strays) }
        ensures faults { IfOk result (λ b. b.faults ≡ self.now.faults) }
    {
        Ok(MemBlocks {
            blocks: self.blocks.clone()?,
            ..*self
        })
    }

    /// Lets the call with this number, counted from 0 on, answer `DiskFault`.
    pub fn fail(&mut self, call: u64) {
        self.fails_in = call;
    }

    /// How many blocks were loaded and placed, or failed.
    pub fn calls(&self) -> u64 {
        self.calls
    }

    /// Lets `place` ask for an unknown pointer where it answers this VVBN.
    pub fn hide(&mut self, vvbn: u32) {
        self.unknown = Some(vvbn);
    }

    /// Lets each block that was placed be shared, as a snapshot does.
    pub fn share(&mut self) {
        self.shared = self.next;
    }

    /// How many blocks of a kind were placed.
    pub fn placed(&self, kind: u8) -> u64 {
        if kind < 8 {
            self.placed[kind as usize]
        } else {
            0
        }
    }

    /// How many blocks were named as gone and dropped, and how often there was none to drop.
    pub fn gone(&self) -> (u64, u64) {
        (self.dropped, self.strays)
    }

    /// Counts a call, and tells whether it is to fail.
    fn is_spent(&mut self) -> bool
        ensures blocks { self.new.blocks ≡ self.old.blocks }
        ensures faults { self.new.faults ≡ self.old.faults }
        ensures next { self.new.next ≡ self.old.next }
        ensures loads { self.new.loads ≡ self.old.loads }
        ensures strays { self.new.strays ≡ self.old.strays }
        ensures unknown { self.new.unknown ≡ self.old.unknown }
        ensures shared { self.new.shared ≡ self.old.shared }
    {
        let fails = self.calls == self.fails_in;
        self.calls = self.calls.saturating_add(1);
        fails
    }

    /// Where a block that is placed reads, or 0 where that is hidden.
    fn pvbn_of(&self, vvbn: u32) -> u32
        requires { vvbn ≤ 1048574 }
        ensures { result ≤ 1048575 }
    {
        if self.unknown == Some(vvbn) {
            0
        } else {
            vvbn + 1
        }
    }

    /// Counts a fault.
    fn fault(&mut self) -> TreeFault
        ensures blocks { self.new.blocks ≡ self.old.blocks }
        ensures rose { Rose self.old.faults self.new.faults }
        ensures later { self.old.faults ≤ self.new.faults }
        ensures fault { result ≡ DiskFault }
        ensures next { self.new.next ≡ self.old.next }
        ensures loads { self.new.loads ≡ self.old.loads }
        ensures strays { self.new.strays ≡ self.old.strays }
        ensures unknown { self.new.unknown ≡ self.old.unknown }
        ensures shared { self.new.shared ≡ self.old.shared }
    {
        self.faults = self.faults.saturating_add(1);
        TreeFault::DiskFault
    }
}

/// Counts a block of a kind that was placed.
fn count_kind(placed: &mut [u64; 8], kind: u8)
    requires { kind ≤ 7 }
{
    let kind = kind as usize;
    placed[kind] = placed[kind].saturating_add(1);
}

/// Counts a VVBN that was named as gone.
fn count_gone(dropped: &mut u64, strays: &mut u64, found: bool)
    ensures named { found ≡ true → strays.new ≡ strays.old }
    ensures stray { found ≡ false → Rose strays.old strays.new }
{
    if found {
        *dropped = dropped.saturating_add(1);
    } else {
        *strays = strays.saturating_add(1);
    }
}

impl Blocks for MemBlocks {
    ghost shown = { λ b. shown_in_memory b.blocks b.next b.loads b.strays b.faults };

    ghost told = { Unit {0} };

    ghost known = { ⊥ };

    ghost reads = { λ a b. (b.unknown ≡ a.unknown) × (b.shared ≡ a.shared) };

    ghost goes = { λ a b. b.unknown ≡ a.unknown };

    ghost keeps = { λ v a b. Unit {0} };

    ghost laws = { λ b. in_memory_is_source b.blocks b.next b.loads b.strays b.faults };

    ghost reads_nothing = { λ b. (refl, refl) };

    ghost reads_on = { λ a b c first second. (second.0 ∙ first.0, second.1 ∙ first.1) };

    ghost reads_go = { λ a b is. is.0 };

    ghost goes_nothing = { λ b. refl };

    ghost goes_on = { λ a b c first second. second ∙ first };

    ghost reads_keep = { λ v a b is. tt };

    ghost keeps_on = { λ v a b c first second. tt };

    fn load(&mut self, pointer: &Pointer, into: &mut [u8; 4096]) -> Result<u32, TreeFault> {
        if self.is_spent() || pointer.vvbn >= u64::from(MOST) {
            return Err(self.fault());
        }
        if self.loads == u64::MAX {
            return Err(TreeFault::Memory);
        }
        let vvbn = pointer.vvbn as u32;
        match self.blocks.get(&vvbn) {
            Some(kept) => *into = kept.0,
            None => return Err(self.fault()),
        }
        self.loads += 1;
        Ok(vvbn + 1)
    }

    fn load_as(
        &mut self,
        pointer: &Pointer,
        form: Form,
        into: &mut [u8; 4096],
        has: &mut bool,
    ) -> Result<u32, TreeFault> {
        let at = self.load(pointer, into)?;
        *has = has_form(into, form);
        Ok(at)
    }

    fn place(&mut self, kind: u8, block: &[u8; 4096]) -> Result<Placed, TreeFault> {
        if self.is_spent() {
            return Err(self.fault());
        }
        let vvbn = self.next;
        if vvbn >= MOST || self.blocks.contains_key(&vvbn) {
            return Err(TreeFault::Memory);
        }
        let pvbn = self.pvbn_of(vvbn);
        match self.blocks.insert(vvbn, (*block, pvbn, kind)) {
            Ok(_) => {}
            Err(_) => return Err(TreeFault::Memory),
        }
        self.next = vvbn + 1;
        count_kind(&mut self.placed, kind);
        Ok(Placed { vvbn, pvbn })
    }

    fn gone(&mut self, vvbn: u32) {
        let found = self.blocks.remove(&vvbn).is_some();
        count_gone(&mut self.dropped, &mut self.strays, found);
    }
}

impl Sharing for MemBlocks {
    ghost shared = { λ b v. nat_lt v b.shared };

    fn is_shared(&self, vvbn: u64) -> bool {
        vvbn < u64::from(self.shared)
    }

    ghost reads_share = { λ a b is v. ap (nat_lt v) is.1 };
}
