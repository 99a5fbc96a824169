//! How often each block is held.

ghost use Rattle.std.specs.Prelude.{◌≡◌, ◌<◌, ◌+◌, ◌++◌, ◌∷◌, ℕ, List, [], min, true, length, IfOk, OnOk};
ghost use Rattle.fv_bits.specs.Members.{is_member};
ghost use Rattle.fv_third_pass.specs.Tallied.{Raised, Tallies, further, holds};

use fv_bits::BitMap;
use std::alloc::{AllocError, Global};
use std::collections::BTreeMap;

/// How often each block of an aggregate is held: a bit for each block, and a number for each that is held more than once.
#[derive(Drop)]
pub struct Holders {
    /// The blocks that are held.
    pub held: BitMap,
    /// By each block that is held more than once, how often it is held beside the first time.
    pub again: BTreeMap<u32, u32>,
}

impl Holders {
    /// No block of so many is held. The one error is want of memory. Costs a bit for each block.
    #[tactic(auto, using(crate::proofs::Tallying::none_tallied))]
    pub(crate) fn new(alloc: Global, blocks: u32) -> Result<Holders, AllocError>
        ensures size { IfOk result (λ holders. length holders.held ≡ blocks) }
        ensures none { IfOk result (Tallies []) }
    {
        let held = BitMap::new(alloc, blocks)?;
        Ok(Holders {
            held,
            again: BTreeMap::new(alloc),
        })
    }

    /// How often a block is held.
    pub(crate) fn times(&self, at: u32) -> u64
        requires { at < length self.now.held }
        ensures { result ≡ holds self.now at }
    {
        if self.held.get(at) {
            u64::from(self.further(at)) + 1
        } else {
            0
        }
    }

    /// How often a block is held beside the first time.
    fn further(&self, at: u32) -> u32
        ensures { result ≡ further self.now at }
    {
        match self.again.get(&at) {
            Some(times) => *times,
            None => 0,
        }
    }

    /// Counts a block once more. One that isn't the aggregate's is passed over. Takes the logarithm of the number of blocks that are held
    /// more than once.
    #[tactic(auto, using(crate::proofs::Tallying::tallies_past, crate::proofs::Tallying::tallies_again))]
    pub(crate) fn hold(&mut self, at: u32) -> Result<(), AllocError>
        ensures size { length self.new.held ≡ length self.old.held }
        ensures tallies { (list : List ℕ) → Tallies list self.old → OnOk result (Tallies (list ++ at ∷ []) self.new) }
    {
        if at >= self.held.len() {
            return Ok(());
        }
        if self.held.get(at) {
            return self.raise(at);
        }
        self.held.set(at);
        Ok(())
    }

    /// Counts once more how often a block is held beside the first time.
    fn raise(&mut self, at: u32) -> Result<(), AllocError>
        ensures same { self.new.held ≡ self.old.held }
        ensures raised { OnOk result (Raised at self.old self.new) }
    {
        let times = self.further(at);
        self.again.insert(at, times.saturating_add(1))?;
        Ok(())
    }
}
