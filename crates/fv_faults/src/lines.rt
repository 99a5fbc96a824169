//! Lines as a check collects them.

ghost use Rattle.std.specs.Prelude.{◌≡◌, ◌↔◌, IsTrue, OnOk, OnErr, [], ◌∷◌};
ghost use Rattle.std.specs.List.Sorted.{IsStrictlySortedBy};
ghost use Rattle.fv_faults.specs.Lines.{fault_cmp, put};
ghost use Rattle.fv_faults.specs.Adding.{Adds};

use crate::fault::Fault;
use std::alloc::{AllocError, Global};
use std::collections::BTreeSet;

/// Fault lines in their order, each once. A clause sees them as the list `lines.keys`.
#[derive(Debug, Drop)]
pub struct Lines {
    /// The lines, each at its place in their order.
    pub lines: BTreeSet<Fault>,
}

impl Lines {
    /// No lines. It takes no memory.
    pub fn new(alloc: Global) -> Lines
        ensures empty { result.lines.keys ≡ [] }
    {
        Lines {
            lines: BTreeSet::new(alloc),
        }
    }

    /// Whether no line is noted.
    pub fn is_empty(&self) -> bool
        ensures { IsTrue result ↔ (self.now.lines.keys ≡ []) }
    {
        self.lines.is_empty()
    }

    /// Notes a line at its place among the others; a line that is noted already stays once. It is refused where memory is, and then the
    /// lines stay. It takes time by the logarithm of the number of lines.
    #[tactic(auto, using(crate::proofs::Adding::adds_one))]
    pub fn note(&mut self, fault: Fault) -> Result<(), AllocError>
        ensures noted { OnOk result (self.new.lines.keys ≡ put fault self.old.lines.keys) }
        ensures adds { OnOk result (Adds (fault ∷ []) self.old self.new) }
        ensures failed { OnErr result (self.new.lines.keys ≡ self.old.lines.keys) }
        ensures ordered { IsStrictlySortedBy fault_cmp self.new.lines.keys }
    {
        match self.lines.insert(fault) {
            Ok(_) => Ok(()),
            Err(e) => Err(AllocError::from(e)),
        }
    }
}
