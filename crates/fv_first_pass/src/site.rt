//! The volume whose blocks are judged.

use fv_codec::Label;

/// A volume as its label tells of it.
#[derive(Clone, Copy, Debug, PartialEq, Eq)]
pub struct Site {
    /// How many blocks the aggregate has, from 512 to 1,048,576.
    pub blocks: u32,
    /// The slot of the volume, 0 to 63.
    pub slot: u8,
    /// Its label.
    pub label: Label,
}

/// Where a node of a container lies.
#[derive(Clone, Copy, Debug, PartialEq, Eq)]
pub(crate) struct Spot {
    /// Its number among the nodes of its level.
    pub(crate) number: u32,
    /// Its place, or 0 where it is absent.
    pub(crate) at: u32,
}
