//! The tests.

mod costs;
mod pair;
mod rows;
mod spelled;
mod taken;
mod walk;
