//! The fault lines of an image: what the check says of one that isn't sound, by definition; and the set in which a check collects lines.
//!
//! `specs/` has the definition, `faults`, over that of an image (`fv_image`): four passes, each made only where those before found nothing.
//! `proofs/` has its laws, above all which tests of soundness a rule's lines are. `docs/FORMAT.md` has the rules in words.
#![tactic(auto)]

mod fault;
mod lines;

pub use fault::Fault;
pub use lines::Lines;
