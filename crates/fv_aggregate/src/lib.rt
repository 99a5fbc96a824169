//! Sessions over an aggregate: opening one, and the commands applied to it one after another.
#![tactic(auto)]

mod adding;
mod aiming;
mod cleaning;
mod cloning;
mod delays;
mod fault;
mod files;
mod managing;
mod mirroring;
mod numbers;
mod opening;
mod points;
mod reading;
mod replies;
mod session;
mod snapshots;
mod volumes;
mod working;

pub use fault::{Fault, OpenFault};
pub use replies::refuse;
pub use session::Session;
