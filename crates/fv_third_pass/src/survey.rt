//! What the first two passes learnt of an aggregate, and of one of its volumes.

use crate::roots::MapRoot;
use fv_codec::Label;
use fv_first_pass::Known;
use fv_root::Found;
use fv_second_pass::Reached;

/// What the first two passes learnt of an aggregate, as it is lent to the passes after them.
#[derive(Drop)]
pub struct Survey<'r, 'k, 'm> {
    /// The root that counts.
    pub root: &'r Found,
    /// What the first pass read under that root: the labels, and the words of the entries.
    pub known: &'k Known,
    /// Which VVBNs the roots of the volumes reach, as the second pass told it.
    pub reached: &'m Reached,
}

/// What they learnt of one volume of it.
#[derive(Drop)]
pub struct VolumeSurvey<'v> {
    /// What they learnt of the aggregate.
    pub survey: &'v Survey<'v, 'v, 'v>,
    /// The slot of the volume, 0 to 63.
    pub slot: u8,
    /// Its label.
    pub label: &'v Label,
    /// The block of its label.
    pub at: u64,
    /// The roots that its label names, in the order of their map slots.
    pub roots: &'v [MapRoot],
}
