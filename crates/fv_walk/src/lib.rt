//! The walks of a check along the pointers of one table.
//!
//! `specs/Sights.antt` says what a walk sees, over the definitions of `fv_faults`.
#![tactic(auto)]

mod below;
mod block;
mod both;
mod children;
mod fault;
mod gather;
mod limits;
mod look;
mod names;
mod notes;
mod plain;
mod source;
mod state;
mod stops;
mod visit;
mod visitor;

pub use below::Below;
pub use both::Both;
pub use fault::WalkFault;
pub use limits::Limits;
pub use plain::walk;
pub use source::{Found, Source};
pub use stops::walk_with_stops;
pub use visit::{Table, Visit};
pub use visitor::Visitor;
