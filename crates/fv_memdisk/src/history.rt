//! What the host has lived through, and the disk as it reads now.

ghost use Rattle.std.specs.Prelude.{◌≡◌, ℕ, ◌≤◌, [], ◌∷◌, ◌++◌, length, IfOk, OnOk, OnErr};
ghost use Rattle.fv_memdisk.specs.declared.kept.Event.TheVariants.{Write, Torn, Barrier, Give};
ghost use Rattle.fv_memdisk.specs.Story.{IsSound, Adds, Forgets, IsNew, BeginsRun, moment_of, output_at, state_of};
ghost use Rattle.fv_disk.specs.Shown.{IsBlock};
ghost use Rattle.fv_memdisk.specs.Tears.{image_of};
ghost use Rattle.fv_memdisk.specs.Blocks.{told, disk_of, found, Puts};

use crate::Tear;
use crate::blocks::Blocks;
use crate::forgotten::{Forgotten, Place};
use crate::kept::{Event, Kept};
use crate::torn::torn;
use crate::unsettled::find_unsettled;
use fv_disk::Block;
use std::alloc::{AllocError, Global};

#[derive(Drop)]
pub(crate) struct History {
    alloc: Global,
    // the disk at the start, zero where it has no block
    base: Blocks,
    // the blocks written since
    current: Blocks,
    past: Vec<Kept>,
    // how many of the past calls were in earlier runs
    run: usize,
    // the output of this run
    given: Vec<u8>,
    forgotten: Forgotten,
    ghost sound: { IsSound (told base current past.items run given.items forgotten.places) },
}

fn keep_write(
    past: &mut Vec<Kept>,
    current: &mut Blocks,
    output: usize,
    at: u64,
    block: &Block,
) -> Result<(), AllocError>
    ensures kept { OnOk result (past.new.items ≡ past.old.items ++ record { event = Write at block.now; output = output } ∷ []) }
    ensures put { OnOk result (Puts current.old current.new at block.now) }
    ensures past_stays { OnErr result (past.new.items ≡ past.old.items) }
    ensures current_stays { OnErr result ((a : ℕ) → found current.new a ≡ found current.old a) }
{
    past.reserve(1)?;
    current.put(at, block)?;
    past.push_reserved(Kept {
        event: Event::Write(at, *block),
        output,
    });
    Ok(())
}

fn keep(past: &mut Vec<Kept>, event: Event, output: usize) -> Result<(), AllocError>
    ensures kept { OnOk result (past.new.items ≡ past.old.items ++ record { event = event; output = output } ∷ []) }
    ensures stays { OnErr result (past.new.items ≡ past.old.items) }
{
    past.push(Kept { event, output })?;
    Ok(())
}

fn keep_output(past: &mut Vec<Kept>, given: &mut Vec<u8>, bytes: &[u8]) -> Result<(), AllocError>
    ensures given { OnOk result (given.new.items ≡ given.old.items ++ bytes.now) }
    ensures kept { OnOk result (past.new.items ≡ past.old.items ++ record { event = Give; output = length (given.old.items ++ bytes.now) } ∷ []) }
    ensures given_stays { OnErr result (given.new.items ≡ given.old.items) }
    ensures past_stays { OnErr result (past.new.items ≡ past.old.items) }
{
    past.reserve(1)?;
    given.extend_from_slice(bytes)?;
    past.push_reserved(Kept {
        event: Event::Give,
        output: given.len(),
    });
    Ok(())
}

impl History {
    ghost use Rattle.fv_memdisk.specs.Lived.{story_of};

    /// The content of a block.
    pub(crate) fn read(&self, at: u64, into: &mut Block)
        ensures { into.new ≡ (story_of self.now).reads at }
    {
        match self.current.get(at) {
            Some(block) => *into = *block,
            None => match self.base.get(at) {
                Some(block) => *into = *block,
                None => *into = [0; 4096],
            },
        }
    }

    /// Keeps a write, or forgets it where there is no memory. Costs a block, and the logarithm of the
    /// number of blocks written.
    pub(crate) fn write(&mut self, at: u64, block: &Block) -> Result<(), AllocError>
        ensures kept { OnOk result (Adds (story_of self.old) (story_of self.new) (Write at block.now) []) }
        ensures forgotten { OnErr result (Forgets (story_of self.old) (story_of self.new) at) }
    {
        let output = self.given.len();
        match keep_write(&mut self.past, &mut self.current, output, at, block) {
            Ok(()) => Ok(()),
            Err(error) => {
                self.forget(at);
                Err(error)
            }
        }
    }

    /// Keeps a write that failed, or forgets it where there is no memory.
    pub(crate) fn tear(&mut self, at: u64) -> Result<(), AllocError>
        ensures kept { OnOk result (Adds (story_of self.old) (story_of self.new) (Torn at) []) }
        ensures forgotten { OnErr result (Forgets (story_of self.old) (story_of self.new) at) }
    {
        let output = self.given.len();
        let kept = keep(&mut self.past, Event::Torn(at), output);
        if kept.is_err() {
            self.forget(at);
        }
        kept
    }

    fn forget(&mut self, at: u64)
        ensures { Forgets (story_of self.old) (story_of self.new) at }
    {
        let place = Place {
            moment: self.past.len(),
            at,
        };
        self.forgotten = Forgotten::with(&self.forgotten, &place);
    }

    /// Keeps a barrier. At `Err` nothing changed.
    pub(crate) fn barrier(&mut self) -> Result<(), AllocError>
        ensures kept { OnOk result (Adds (story_of self.old) (story_of self.new) Barrier []) }
        ensures same { OnErr result (story_of self.new ≡ story_of self.old) }
    {
        let output = self.given.len();
        keep(&mut self.past, Event::Barrier, output)
    }

    /// Adds all of the bytes to the output. At `Err` nothing changed.
    pub(crate) fn give(&mut self, bytes: &[u8]) -> Result<(), AllocError>
        ensures kept { OnOk result (Adds (story_of self.old) (story_of self.new) Give bytes.now) }
        ensures same { OnErr result (story_of self.new ≡ story_of self.old) }
    {
        keep_output(&mut self.past, &mut self.given, bytes)
    }

    /// A history of no call, over these blocks.
    pub(crate) fn new(alloc: Global, base: Blocks) -> Self
        requires { (a : ℕ) → IsBlock (disk_of base a) }
        ensures { IsNew (disk_of base) (story_of result) }
    {
        History {
            alloc,
            base,
            current: Blocks::new(alloc),
            past: Vec::new(alloc),
            run: 0,
            given: Vec::new(alloc),
            forgotten: Forgotten::new(),
        }
    }

    /// Begins another run: the output is empty, and the moments begin anew.
    pub(crate) fn next_run(&mut self)
        ensures { BeginsRun (story_of self.old) (story_of self.new) }
    {
        self.run = self.past.len();
        self.given.clear();
    }

    pub(crate) fn allocator(&self) -> Global {
        self.alloc
    }

    pub(crate) fn given(&self) -> &[u8]
        ensures { result.now ≡ (story_of self.now).given }
    {
        &self.given
    }

    /// How many calls of this run are kept.
    pub(crate) fn moment(&self) -> usize
        ensures { result ≡ moment_of (story_of self.now) }
    {
        self.past.len() - self.run
    }

    /// The length of the output at a moment of this run.
    pub(crate) fn output_at(&self, moment: usize) -> usize
        requires { moment ≤ moment_of (story_of self.now) }
        ensures { result ≡ output_at (story_of self.now) moment }
    {
        if moment == 0 {
            return 0;
        }
        self.past[self.run + moment - 1].output
    }

    /// How many blocks wait for a barrier at a moment of this run.
    pub(crate) fn waiting(&self, moment: usize) -> Result<usize, AllocError>
        requires { moment ≤ moment_of (story_of self.now) }
        ensures { IfOk result (λ count. count ≡ length (state_of (story_of self.now) moment).written) }
    {
        let found = find_unsettled(self.alloc, &self.past[..self.run + moment])?;
        Ok(found.written.len())
    }

    /// The blocks that a crash leaves at a moment of this run.
    pub(crate) fn torn(&self, moment: usize, tear: Tear) -> Result<Blocks, AllocError>
        requires { moment ≤ moment_of (story_of self.now) }
        ensures content { IfOk result (λ blocks. (a : ℕ) → disk_of blocks a ≡ image_of tear (state_of (story_of self.now) moment) a) }
        ensures whole { IfOk result (λ blocks. (a : ℕ) → IsBlock (disk_of blocks a)) }
    {
        torn(
            self.alloc,
            &self.base,
            &self.past[..self.run + moment],
            tear,
        )
    }
}
