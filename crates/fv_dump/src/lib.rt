//! A look at the image of an aggregate, as text, without a change.
#![tactic(auto)]

mod blocks;
mod container;
mod ending;
mod entries;
mod files;
mod finding;
mod fixed;
mod held;
mod letters;
mod loading;
mod look;
mod met;
mod program;
mod taken;
mod text;
mod volume;
mod volumes;
mod walk;

pub use look::Look;
pub use program::dump;
