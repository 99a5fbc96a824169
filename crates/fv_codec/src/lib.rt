//! The blocks of the aggregate's format as Rust values: exact encoding and decoding.
#![tactic(auto)]

mod container;
mod form;
mod gate;
mod inode;
mod label;
mod node;
mod page;
mod pointer;
mod reading;
mod renew;
mod root;
mod shape;
mod superblock;

pub use container::{ContainerInner, ContainerLeaf, GREATEST_KIND};
pub use form::{Form, has_form};
pub use gate::{gate_open, open_gate};
pub use inode::{InodeBlock, InodeRecord};
pub use label::{Label, SnapRecord};
pub use node::Node;
pub use pointer::Pointer;
pub use root::{Root, SLOTS};
pub use shape::Shape;
pub use superblock::Super;
