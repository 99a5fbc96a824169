//! What takes the copies.

ghost use Rattle.std.specs.Prelude.{◌≡◌, ◌≢◌, ◌≤◌, ◌+◌, ◌++◌, ◌∷◌, ℕ, List, [], IfErr, OnOk};
ghost use Rattle.fv_disk.specs.Faults.{HasBlockCause};
ghost use Rattle.fv_store.specs.Held.{StandsOn};
ghost use Rattle.fv_pool.specs.BlocksOver.{LeavesPool};
ghost use Rattle.fv_pool.specs.declared.pool.Pool.{Pool};
ghost use Rattle.fv_copies.specs.Copying.{Content, Copy, HasWriteCause, IsCopyKind, IsUndamaged, LeavesTaken, content_of};

use fv_disk::{Block, BlockFault, Disk};
use fv_pool::Pool;

/// What takes the copies of a slot's blocks, each once, in the order of their VVBNs. It is lent the pool and the disk at each call, which
/// the reads between two calls use, too.
pub trait Sink {
    /// It has no block under a number, and can take one.
    ghost lacks: { Self → ℕ → Type 0 };

    /// What it has taken so far, as it lies over a pool and the content of a disk.
    ghost got: { Self → Pool → Content → List Copy → Type 0 };

    /// How many blocks it can take for sure, over a pool, as far as memory and disk go.
    ghost room: { Self → Pool → ℕ };

    /// What a call leaves of it and of the pool, whatever the disk tells.
    ghost goes: { Self → Pool → Self → Pool → Type 0 };

    /// Whether it gives no bytes out. One that gives some takes a statement that can't be shown.
    ghost quiet: { Type 0 };

    /// Takes the copy of a block of a kind under a VVBN. It leaves the blocks that aren't free, and the containers.
    ///
    /// # Errors
    /// `DiskFault` only where a disk call failed, and `Memory` where memory ran out. `Damaged` only where it has no room left, or where the disk
    /// doesn't tell what it has taken.
    fn take<D: Disk>(
        &mut self,
        pool: &mut Pool,
        disk: &mut D,
        vvbn: u32,
        kind: u8,
        block: &Block,
    ) -> Result<(), BlockFault>
        requires lacks { lacks self.old vvbn }
        requires kind { IsCopyKind kind }
        requires stands { StandsOn (D.shown disk.old) pool.old.store.pairs }
        ensures lacks { (v : ℕ) → v ≢ vvbn → lacks self.old v → lacks self.new v }
        ensures got { (ts : List Copy) → got self.old pool.old (content_of (D.shown disk.old)) ts
            → OnOk result (got self.new pool.new (content_of (D.shown disk.new)) (ts ++ ((record { vvbn = vvbn; kind = kind; block = block.now }) ∷ []))) }
        ensures room { OnOk result (room self.old pool.old ≤ room self.new pool.new + 1) }
        ensures enough { (ts : List Copy) → got self.old pool.old (content_of (D.shown disk.old)) ts → room self.old pool.old ≢ 0 → IfErr result IsUndamaged }
        ensures leaves { LeavesTaken quiet (D.shown disk.old) pool.old (D.shown disk.new) pool.new }
        ensures goes { goes self.old pool.old self.new pool.new }
        ensures stands { StandsOn (D.shown disk.new) pool.new.store.pairs }
        ensures cause { HasBlockCause (D.shown disk.old).faults (D.shown disk.new).faults result }
        ensures write_cause { HasWriteCause (D.shown disk.old).write_faults (D.shown disk.new).write_faults result };

    /// Reads between two calls leave what it has, its room, and what a call may leave; two calls leave what one may.
    ghost got_reads: { (sink : Self) (pool left : Pool) (content : Content) (ts : List Copy) → LeavesPool pool left → got sink pool content ts → got sink left content ts };

    ghost room_reads: { (sink : Self) (pool left : Pool) → LeavesPool pool left → room sink left ≡ room sink pool };

    ghost goes_reads: { (sink : Self) (pool left : Pool) → LeavesPool pool left → goes sink pool sink left };

    ghost goes_on: { (old mid new : Self) (pool left last : Pool) → goes old pool mid left → goes mid left new last → goes old pool new last };
}
