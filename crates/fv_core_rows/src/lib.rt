//! Tests of maps, lists of snapshots, containers with what they read and write, delayed frees, trees and sessions over a host in memory: rows
//! worked out by hand, calls that fail, and texts.
#![tactic(auto)]

#[cfg(test)]
mod containers;
#[cfg(test)]
mod delayed;
#[cfg(test)]
mod failed;
#[cfg(test)]
mod going_on;
#[cfg(test)]
mod maps;
#[cfg(test)]
mod mirrored;
#[cfg(test)]
mod paged;
#[cfg(test)]
mod snapshots;
#[cfg(test)]
mod store;
#[cfg(test)]
mod texts;
#[cfg(test)]
mod trees;
