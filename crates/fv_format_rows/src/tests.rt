//! The tests.

mod bits;
mod blocks;
mod lines;
mod scripts;
mod vectors;
