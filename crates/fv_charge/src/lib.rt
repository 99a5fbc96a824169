//! The ledger of a volume: what it is charged for, what it needs and what it commits, in blocks, and the numbers that follow from
//! its span. `docs/SPACE.md` and `docs/MACHINE.md` have the rules.
#![tactic(auto)]

mod count;
mod delta;
mod ledger;
mod numbers;

pub use delta::Delta;
pub use ledger::Ledger;
pub use numbers::{overhead, span_of};
