//! The plain machine as a program: a script's lines are applied to a fresh machine, one as it comes, and
//! each is answered before the next. It prints the script of a seed, too.
#![tactic(auto)]

mod answering;
mod ending;
mod laws;
mod program;
mod words;

pub use laws::output_is_allowed;
pub use program::reference;
pub use words::{Order, WordsFault, read_words};
