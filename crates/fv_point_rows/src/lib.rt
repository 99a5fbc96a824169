//! Tests of consistency points of volumes with files, over a host in memory: each image that a point may leave is opened, and told apart by
//! what its volumes answer. The plain machine stands beside it.
#![tactic(auto)]

#[cfg(test)]
mod failing;
#[cfg(test)]
mod filling;
#[cfg(test)]
mod points;
#[cfg(test)]
mod torn;
