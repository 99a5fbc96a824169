//! The command that makes a mirror: a volume that begins with copies of all blocks that another volume's snapshot reaches, each under its VVBN,
//! with places that aren't known. It's judged first, and then made: the copies are written at once, to free blocks.
#![tactic(auto)]

mod admitting;
mod making;

pub use admitting::{Admitted, admit};
pub use making::{import_local, make};
