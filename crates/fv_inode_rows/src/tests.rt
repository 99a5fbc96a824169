//! The tests.

mod beside;
mod far;
mod flushed;
mod rows;
mod shared;
mod stored;
mod taken;
