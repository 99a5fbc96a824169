//! The machine of named file tables as a plain program, proved equal to its definitions.
//!
//! It copies whole tables and counts everything anew, so that it can be read beside the definitions. Every other body is
//! compared with it.
#![tactic(auto)]

mod aggregates;
mod answers;
mod asked;
mod counted;
mod effects;
mod full;
mod machines;
mod maps;
mod places;
mod refusals;
mod sets;
mod space;
mod tables;
mod trees;
mod volumes;

pub use machines::Machine;
pub use trees::Tree;
