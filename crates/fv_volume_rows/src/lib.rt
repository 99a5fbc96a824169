//! Tests of the calls of volumes over a host in memory: rows worked out by hand, each with the reply of the plain machine beside it,
//! and random commands on three volumes. No consistency point is made.
#![tactic(auto)]

mod beside;
mod calls;
#[cfg(test)]
mod failing;
#[cfg(test)]
mod images;
#[cfg(test)]
mod large;
mod opened;
mod random;
#[cfg(test)]
mod rows;
#[cfg(test)]
mod snapshots;
mod wrong;

pub use beside::{
    Pair, Row, agree_on, agrees, agrees_on, answers, line_of, name, new_pair, tells, walk,
};
pub use calls::{apply, flush};
pub use opened::{Opened, Part, empty, fail_read, host_of, open};
pub use random::{VOLUMES, agree_on_volumes, run};
pub use wrong::Wrong;
