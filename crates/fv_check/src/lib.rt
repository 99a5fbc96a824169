//! The check of an aggregate: whether it is sound, and else its fault lines (`fv_faults`).
#![tactic(auto)]

mod cached;
mod judging;
mod totals;

pub use judging::check;
