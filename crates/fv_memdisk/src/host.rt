//! The host, which counts its calls and leaves what it has lived through to its history.

ghost use Rattle.std.specs.Prelude.{◌≡◌, ◌≤◌, ◌<◌, ◌+◌, ◌-◌, ◌^◌, min, length, take, drop, OnOk, OnErr};
ghost use Rattle.fv_disk.specs.Shown.{Rose, IsBlock};
ghost use Rattle.fv_memdisk.specs.Blocks.{disk_of};

use crate::blocks::Blocks;
use crate::history::History;
use crate::tally::Tallies;
use crate::{Call, Tear};
use fv_disk::{Block, Disk, Failed, Host};
use std::alloc::{AllocError, Global};

/// A host in memory, which tells all of its content.
#[derive(Drop)]
pub struct MemHost {
    history: History,
    source: Vec<u8>,
    // how many bytes of the source were taken
    taken: usize,
    tallies: Tallies,
    faults: u64,
    write_faults: u64,
    source_faults: u64,
    sink_faults: u64,
    starved: u64,
    ghost taken_in: { taken ≤ length source.items },
}

// Counts one more. At 2^64 - 1 the count stays.
fn raise(count: &mut u64)
    ensures counted { count.new ≡ min (count.old + 1) (2 ^ 64 - 1) }
    ensures rose { Rose count.old count.new }
    ensures later { count.old ≤ count.new }
{
    *count = count.saturating_add(1);
}

// Counts a call for whose record no memory was found.
fn note(kept: &Result<(), AllocError>, starved: &mut u64)
    ensures kept { OnOk kept.now (starved.new ≡ starved.old) }
    ensures wanting { OnErr kept.now (Rose starved.old starved.new) }
    ensures later { starved.old ≤ starved.new }
{
    if kept.is_err() {
        raise(starved);
    }
}

// Copies what comes after the bytes taken into the front of `into`, and answers how much.
fn copy_rest(source: &[u8], taken: usize, into: &mut [u8]) -> usize
    requires { taken ≤ length source.now }
    ensures count { result ≡ min (length (drop taken source.now)) (length into.new) }
    ensures bytes { take result into.new ≡ take result (drop taken source.now) }
{
    let rest = &source[taken..];
    let count = rest.len().min(into.len());
    into[..count].copy_from_slice(&rest[..count]);
    count
}

impl MemHost {
    ghost use Rattle.std.specs.Prelude.{ℕ, [], replicate, IfOk};
    ghost use Rattle.fv_memdisk.specs.Story.{moment_of, output_at, state_of};
    ghost use Rattle.fv_memdisk.specs.Tears.{image_of};
    ghost use Rattle.fv_memdisk.specs.Tallies.{Names, SameTallies};
    ghost use Rattle.fv_memdisk.specs.Host.{story, shown_of, starved_of, Begins, ShowsTheSame, BeginsAgain};

    /// A host with a disk of zeros, and these bytes in its source. It takes no memory.
    pub fn new(alloc: Global, source: Vec<u8>) -> Self
        ensures begins { Begins result source.items }
        ensures zeros { (a : ℕ) → (shown_of result).reads a ≡ replicate 4096 0 }
    {
        MemHost::over(alloc, Blocks::new(alloc), source)
    }

    // A host that has just begun over these blocks.
    fn over(alloc: Global, blocks: Blocks, source: Vec<u8>) -> Self
        requires { (a : ℕ) → IsBlock (disk_of blocks a) }
        ensures begins { Begins result source.items }
        ensures content { (a : ℕ) → (shown_of result).reads a ≡ disk_of blocks a }
    {
        MemHost {
            history: History::new(alloc, blocks),
            source,
            taken: 0,
            tallies: Tallies::new(alloc),
            faults: 0,
            write_faults: 0,
            source_faults: 0,
            sink_faults: 0,
            starved: 0,
        }
    }

    /// Lets the call number `nth` of a kind fail, counted from 0 over all runs. Each call costs the
    /// number of failures that were named for its kind.
    pub fn fail(&mut self, call: Call, nth: u64) -> Result<(), AllocError>
        ensures ok { OnOk result (Names call nth self.old.tallies self.new.tallies) }
        ensures err { OnErr result (SameTallies self.old.tallies self.new.tallies) }
        ensures same { ShowsTheSame self.old self.new }
    {
        self.tallies.fail(call, nth)
    }

    /// The output of this run.
    pub fn given(&self) -> &[u8]
        ensures { result.now ≡ (shown_of self.now).given }
    {
        self.history.given()
    }

    /// How many writes, barriers and gives were refused for want of memory. It stays at 2^64 - 1.
    pub fn starved(&self) -> u64
        ensures { result ≡ starved_of self.now }
    {
        self.starved
    }

    /// How many moments this run has: one before its first call and one after each write, barrier
    /// and give that is kept.
    pub fn moments(&self) -> u64
        ensures { result ≡ (shown_of self.now).moment + 1 }
    {
        self.history.moment() as u64 + 1
    }

    /// The length of the output at a moment, which is below `moments()`.
    pub fn given_at(&self, moment: u64) -> usize
        requires { moment ≤ (shown_of self.now).moment }
        ensures { result ≡ output_at (story self.now) moment }
    {
        self.history.output_at(moment as usize)
    }

    /// How many blocks were written since the last barrier at a moment, which is below `moments()`. So many of the first ones
    /// a `Tear::First` tells apart: that of all of them is `Tear::New`. The one error is want of memory. Costs the calls up to
    /// the moment, each with the logarithm of the number of blocks.
    pub fn waiting(&self, moment: u64) -> Result<usize, AllocError>
        requires { moment ≤ (shown_of self.now).moment }
        ensures { IfOk result (λ count. count ≡ length (state_of (story self.now) moment).written) }
    {
        self.history.waiting(moment as usize)
    }

    /// A host whose disk is what a crash leaves at a moment, which is below `moments()`. Its source
    /// and output are empty, and no call fails. Costs the calls up to the moment, each with the
    /// logarithm of the number of blocks and each write with its block.
    pub fn image(&self, moment: u64, tear: Tear) -> Result<MemHost, AllocError>
        requires { moment ≤ (shown_of self.now).moment }
        ensures begins { IfOk result (λ host. Begins host []) }
        ensures content { IfOk result (λ host. (a : ℕ) → (shown_of host).reads a ≡ image_of tear (state_of (story self.now) moment) a) }
        ensures allowed { IfOk result (λ host. (shown_of self.now).since moment (shown_of host).reads (take (output_at (story self.now) moment) (shown_of self.now).given)) }
    {
        let blocks = self.history.torn(moment as usize, tear)?;
        let alloc = self.history.allocator();
        Ok(MemHost::over(alloc, blocks, Vec::new(alloc)))
    }

    /// Begins another run over the same disk, with a new source and an empty output. The moments
    /// begin anew, the counts of calls and of faults go on.
    pub fn next_run(&mut self, source: Vec<u8>)
        ensures { BeginsAgain self.old self.new source.items }
    {
        self.history.next_run();
        self.source = source;
        self.taken = 0;
    }
}

/// Ends a call that fails to change the disk or the output, and counts its fault.
macro_rules! write_fails {
    ($host:ident) => {{
        raise(&mut $host.faults);
        raise(&mut $host.write_faults);
        return Err(Failed);
    }};
}

impl Disk for MemHost {
    ghost use Rattle.fv_disk.specs.DiskCalls.{Reads, Writes, Settles};
    ghost use Rattle.std.specs.Prelude.{[]};
    ghost use Rattle.fv_memdisk.specs.declared.call.Call.TheVariants as calls;
    ghost use Rattle.fv_memdisk.specs.declared.kept.Event.TheVariants.{Write, Torn, Barrier};
    ghost use Rattle.fv_memdisk.specs.Story.{Adds};
    ghost use Rattle.fv_memdisk.specs.Host.{story, shown_of, ends_of, starved_of, Answers};
    ghost use Rattle.fv_memdisk.specs.Lived.{story_of};
    ghost use Rattle.fv_memdisk.specs.Laws.{is_disk};

    ghost shown = { shown_of };

    fn read(&mut self, at: u64, into: &mut Block) -> Result<(), Failed>
        ensures disk { Reads (shown_of self.old) at (shown_of self.new) into.new result }
        ensures exact { Answers calls.Read self.old self.new result }
        ensures lived { story self.new ≡ story self.old }
    {
        if self.tallies.next(Call::Read) {
            raise(&mut self.faults);
            return Err(Failed);
        }
        self.history.read(at, into);
        Ok(())
    }

    fn write(&mut self, at: u64, block: &Block) -> Result<(), Failed>
        ensures disk { Writes (shown_of self.old) at block.now (shown_of self.new) result }
        ensures exact { Answers calls.Write self.old self.new result }
        ensures kept { OnOk result (Adds (story self.old) (story self.new) (Write at block.now) []) }
        ensures torn { OnErr result (¬ Rose (starved_of self.old) (starved_of self.new) → Adds (story self.old) (story self.new) (Torn at) []) }
    {
        if self.tallies.next(Call::Write) {
            let kept = self.history.tear(at);
            note(&kept, &mut self.starved);
            write_fails!(self);
        }
        let kept = self.history.write(at, block);
        note(&kept, &mut self.starved);
        if kept.is_err() {
            write_fails!(self);
        }
        Ok(())
    }

    fn barrier(&mut self) -> Result<(), Failed>
        ensures disk { Settles (shown_of self.old) (shown_of self.new) result }
        ensures exact { Answers calls.Barrier self.old self.new result }
        ensures kept { OnOk result (Adds (story self.old) (story self.new) Barrier []) }
        ensures lived { OnErr result (story self.new ≡ story self.old) }
    {
        if self.tallies.next(Call::Barrier) {
            write_fails!(self);
        }
        let kept = self.history.barrier();
        note(&kept, &mut self.starved);
        if kept.is_err() {
            write_fails!(self);
        }
        Ok(())
    }

    fn faults(&self) -> u64 {
        self.faults
    }

    fn write_faults(&self) -> u64 {
        self.write_faults
    }

    ghost laws = { λ h. is_disk (story_of h.history) h.faults h.write_faults (ends_of h) h.history.sound };
}

impl Host for MemHost {
    ghost use Rattle.fv_disk.specs.HostCalls.{Takes, Gives};
    ghost use Rattle.std.specs.Prelude.{IfOk};
    ghost use Rattle.fv_memdisk.specs.declared.call.Call.TheVariants as calls;
    ghost use Rattle.fv_memdisk.specs.declared.kept.Event.TheVariants.{Give};
    ghost use Rattle.fv_memdisk.specs.Story.{Adds};
    ghost use Rattle.fv_memdisk.specs.Host.{story, shown_of, Answers};

    fn take(&mut self, into: &mut [u8]) -> Result<usize, Failed>
        requires { 0 < length into.old }
        ensures host { Takes (shown_of self.old) into.new (shown_of self.new) result }
        ensures exact { Answers calls.Take self.old self.new result }
        ensures lived { story self.new ≡ story self.old }
    {
        if self.tallies.next(Call::Take) {
            raise(&mut self.source_faults);
            return Err(Failed);
        }
        let count = copy_rest(&self.source, self.taken, into);
        self.taken += count;
        Ok(count)
    }

    fn give(&mut self, bytes: &[u8]) -> Result<usize, Failed>
        requires { 0 < length bytes.now }
        ensures host { Gives (shown_of self.old) bytes.now (shown_of self.new) result }
        ensures exact { Answers calls.Give self.old self.new result }
        ensures all { IfOk result (λ count. count ≡ length bytes.now) }
        ensures kept { OnOk result (Adds (story self.old) (story self.new) Give bytes.now) }
        ensures lived { OnErr result (story self.new ≡ story self.old) }
    {
        if self.tallies.next(Call::Give) {
            raise(&mut self.sink_faults);
            return Err(Failed);
        }
        let kept = self.history.give(bytes);
        note(&kept, &mut self.starved);
        if kept.is_err() {
            raise(&mut self.sink_faults);
            return Err(Failed);
        }
        Ok(bytes.len())
    }
}
