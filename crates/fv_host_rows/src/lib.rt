//! Tests of the hosts, in memory and over a real file.
#![tactic(auto)]

#[cfg(test)]
mod calls;
#[cfg(test)]
mod file;
#[cfg(test)]
mod memory;
