//! Nodes and inode blocks, each judged by itself: whether it has the shape of its kind, and how many of its pointers have a place.
//!
//! `specs/Judging.antt` says what a judgement is, by the answers of `fv_codec`.
#![tactic(auto)]

mod item;
mod judges;

pub use item::{Item, Judged};
pub use judges::{judge, judge_all};
