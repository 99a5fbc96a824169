//! Which numbers of files are taken, held in memory.

ghost use Rattle.std.specs.Prelude.{◌≡◌, ◌<◌, ◌≤◌, ◌||◌, ◌&&◌, not, ℕ, true, false, nat_eq, IfErr, OnOk};
ghost use Rattle.std.specs.Ordering.{nat_cmp};
ghost use Rattle.std.specs.BTreeSet as sets;
ghost use Rattle.fv_disk.specs.declared.fault.BlockFault.TheVariants.{Memory};
ghost use Rattle.fv_model.specs.Numbers.{most_files};
ghost use Rattle.fv_files.specs.Numbering.{is_taken};

use crate::files::FilesFault;
use std::alloc::Global;
use std::collections::BTreeSet;

/// How many numbers of files there are.
pub const MOST_FILES: u32 = 262_144;

/// Which numbers of files are taken: those below `top` that aren't among the free ones.
#[derive(Drop)]
pub struct TakenNumbers {
    top: u32,
    free: BTreeSet<u32>,
}

impl TakenNumbers {
    /// No number is taken. It takes no memory.
    pub fn new(alloc: Global) -> TakenNumbers
        ensures { (n : ℕ) → is_taken result n ≡ false }
    {
        TakenNumbers {
            top: 0,
            free: BTreeSet::new(alloc),
        }
    }

    /// The least number that isn't taken. Costs a step for each level of a balanced tree of the free numbers.
    pub fn least_free(&self) -> u32
        ensures free { is_taken self.now result ≡ false }
        ensures least { (n : ℕ) → n < result → is_taken self.now n ≡ true }
    {
        match self.free.first() {
            Some(number) => (*number).min(self.top),
            None => self.top,
        }
    }

    /// Takes a number, where it is below 262,144.
    pub fn take(&mut self, number: u32) -> Result<(), FilesFault>
        ensures taken { OnOk result ((n : ℕ) → n < most_files → is_taken self.new n ≡ (nat_eq n number || is_taken self.old n)) }
        ensures memory { IfErr result (λ e. e ≡ Memory) }
    {
        if number >= MOST_FILES {
            return Ok(());
        }
        self.reach(number)?;
        self.free.remove(&number);
        if self.top == number {
            self.top += 1;
        }
        Ok(())
    }

    /// Gives a number up.
    pub fn release(&mut self, number: u32) -> Result<(), FilesFault>
        ensures released { OnOk result ((n : ℕ) → is_taken self.new n ≡ (not (nat_eq n number) && is_taken self.old n)) }
        ensures memory { IfErr result (λ e. e ≡ Memory) }
    {
        add(&mut self.free, number)
    }

    /// Lets a number be at most the top.
    fn reach(&mut self, number: u32) -> Result<(), FilesFault>
        requires few { number < most_files }
        ensures same { OnOk result ((n : ℕ) → is_taken self.new n ≡ is_taken self.old n) }
        ensures reached { OnOk result (number ≤ self.new.top) }
        ensures memory { IfErr result (λ e. e ≡ Memory) }
    {
        while self.top < number {
            add(&mut self.free, self.top)?;
            self.top += 1;
        }
        Ok(())
    }
}

/// Adds a number.
fn add(free: &mut BTreeSet<u32>, number: u32) -> Result<(), FilesFault>
    ensures added { OnOk result ((n : ℕ) → sets.contains nat_cmp free.new n ≡ (nat_eq n number || sets.contains nat_cmp free.old n)) }
    ensures memory { IfErr result (λ e. e ≡ Memory) }
{
    match free.insert(number) {
        Ok(_) => Ok(()),
        Err(_) => Err(FilesFault::Memory),
    }
}
