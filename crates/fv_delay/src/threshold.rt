//! The choice of regions by a threshold, without memory.

ghost use Rattle.std.specs.Prelude.{◌≡◌, ◌<◌, ◌++◌, ◌∷◌, [], List, true, min, nat_lt};
ghost use Rattle.std.specs.List.{list_all, list_any};
ghost use Rattle.fv_delay.specs.declared.counts.Count.{Count};
ghost use Rattle.fv_delay.specs.Choice.{full_count, total};
ghost use Rattle.fv_delay.specs.Holding.{has_some};
ghost use Rattle.fv_delay.specs.ByThreshold.{IsTable, behind, most_blocks, passed, takes, takes_some, threshold_for};

use crate::counts::Count;

/// So many delayed entries are worth the writing of their leaf, whatever is lacking.
const FULL: usize = 64;

/// Which regions are taken, asked of one after another.
#[derive(Clone, Copy, Debug, PartialEq, Eq)]
pub struct Threshold {
    /// A region with more delayed entries is taken, and none with fewer. It is below 64.
    count: u32,
    /// Regions with just so many are taken while those before them have fewer delayed entries than this in all.
    left: u64,
}

/// How many blocks wait in the regions with each number of delayed entries, as far as 64 bits go.
#[derive(Clone, Copy, Debug, PartialEq, Eq)]
pub struct Table {
    /// Those of all regions.
    all: u64,
    /// Those of the regions with at least 64.
    full: u64,
    /// Those of the regions with fewer, by the number that each of them has.
    partial: [u64; 64],
}

impl Threshold {
    /// Whether the next region is taken, which has so many delayed entries.
    pub fn takes(&mut self, count: u32) -> bool
        ensures taken { result ≡ takes self.old count }
        ensures passed { self.new ≡ passed self.old count }
    {
        if count != self.count {
            return self.count < count;
        }
        let is_taken = 0 < self.left;
        self.left = self.left.saturating_sub(u64::from(count));
        is_taken
    }

    /// Whether one of the regions of a table is taken, which are the next ones and have delayed entries each.
    ///
    /// It takes no memory. Costs a step for each of 64 numbers.
    pub fn passes(&mut self, table: &Table) -> bool
        requires { self.old.count < full_count }
        ensures taken { (counts : List Count) → IsTable table.now counts → list_all has_some counts ≡ true → result ≡ takes_some self.old counts }
        ensures passed { (counts : List Count) → IsTable table.now counts → list_all has_some counts ≡ true → self.new ≡ behind self.old counts }
        ensures kept { self.new.count ≡ self.old.count }
    {
        let has_more = table.has_more_than(self.count);
        let blocks = table.partial[self.count as usize];
        let is_reached = 0 < blocks && 0 < self.left;
        self.left = self.left.saturating_sub(blocks);
        has_more || is_reached
    }
}

impl Table {
    /// The table of no regions.
    pub fn new() -> Table
        ensures { IsTable result [] }
    {
        Table {
            all: 0,
            full: 0,
            partial: [0; 64],
        }
    }

    /// Adds the regions of another table behind these. It takes no memory. Costs a step for each of 64 numbers.
    pub fn join(&mut self, other: &Table)
        ensures { (counts more : List Count) → IsTable self.old counts → IsTable other.now more → IsTable self.new (counts ++ more) }
    {
        self.all = self.all.saturating_add(other.all);
        self.full = self.full.saturating_add(other.full);
        for level in 0..FULL {
            self.partial[level] = self.partial[level].saturating_add(other.partial[level]);
        }
    }

    /// The delayed entries of all its regions, as far as 64 bits go.
    pub fn total(&self) -> u64
        ensures { (counts : List Count) → IsTable self.now counts → result ≡ min (total counts) most_blocks }
    {
        self.all
    }

    /// Adds a region.
    pub fn add(&mut self, count: Count)
        ensures { (counts : List Count) → IsTable self.old counts → IsTable self.new (counts ++ count ∷ []) }
    {
        let number = count.count as usize;
        let blocks = u64::from(count.count);
        self.all = self.all.saturating_add(blocks);
        if number < FULL {
            self.partial[number] = self.partial[number].saturating_add(blocks);
        } else {
            self.full = self.full.saturating_add(blocks);
        }
    }

    /// The threshold for so many missing blocks: it takes the regions that are chosen for them, asked of all in the order of their volumes'
    /// slots and of their numbers.
    pub fn threshold(&self, missing: u64) -> Threshold
        ensures chosen { (counts : List Count) → IsTable self.now counts → result ≡ threshold_for counts missing }
        ensures low { result.count < full_count }
    {
        let mut left = missing.saturating_sub(self.full);
        let mut count = 63_u32;
        while 0 < count {
            let blocks = self.partial[count as usize];
            if left <= blocks {
                return Threshold { count, left };
            }
            left -= blocks;
            count -= 1;
        }
        Threshold { count: 0, left: 0 }
    }

    /// Whether one of its regions has more delayed entries than so many.
    fn has_more_than(&self, count: u32) -> bool
        requires { count < full_count }
        ensures { (counts : List Count) → IsTable self.now counts → list_all has_some counts ≡ true → result ≡ list_any (λ c. nat_lt count c.count) counts }
    {
        for level in count as usize + 1..FULL {
            if 0 < self.partial[level] {
                return true;
            }
        }
        0 < self.full
    }
}
