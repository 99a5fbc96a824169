//! What a walk with stops keeps.

ghost use Rattle.std.specs.Prelude.{◌≡◌, ◌<◌, ◌^◌, [], true, false, replicate, IfOk};
ghost use Rattle.fv_walk.specs.Blocks.{IsInRange};
ghost use Rattle.fv_walk.specs.Limiting.{IsLimits, IsReady};
ghost use Rattle.fv_walk.specs.Naming.{IsNames};
ghost use Rattle.fv_walk.specs.Visits.{leads_on};

use crate::limits::Limits;
use crate::names::Names;
use crate::visit::Visit;
use fv_bits::BitMap;
use std::alloc::{AllocError, Global};

/// What a walk with stops keeps.
#[derive(Drop)]
pub(crate) struct State {
    pub alloc: Global,
    pub limits: Limits,
    /// The VVBNs that the root has reached.
    pub reach: BitMap,
    /// The names of the files that were met.
    pub names: Names,
}

impl State {
    /// What is kept before the first step. The one error is want of memory. Costs a bit for each VVBN.
    #[tactic(auto, using(crate::proofs::Starting::ready))]
    pub fn new(alloc: Global, limits: &Limits) -> Result<State, AllocError>
        requires limits { IsLimits limits.now }
        requires span { limits.now.span < 2 ^ 32 }
        ensures limits { IfOk result (λ state. state.limits ≡ limits.now) }
        ensures ready { IfOk result IsReady }
        ensures reach { IfOk result (λ state. state.reach ≡ replicate limits.now.span false) }
        ensures names { IfOk result (λ state. IsNames [] state.names) }
    {
        let reach = BitMap::new(alloc, limits.span as u32)?;
        Ok(State {
            alloc,
            limits: *limits,
            reach,
            names: Names::new(alloc),
        })
    }

    /// Whether the block to which a pointer leads is to be read ahead: it holds pointers, and the root hasn't reached it.
    pub fn wants(&self, visit: &Visit) -> bool
        requires ready { IsReady self.now }
        requires range { IsInRange self.now.limits visit.now }
        ensures { result ≡ true → leads_on visit.now ≡ true }
    {
        if visit.pointer.stamp == 0 {
            return false;
        }
        let vvbn = visit.pointer.vvbn as u32;
        if self.reach.get(vvbn) {
            return false;
        }
        visit.leads_on()
    }
}
