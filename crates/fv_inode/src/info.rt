//! What is known of one file.

use fv_codec::Pointer;
use fv_disk::BlockFault;

/// What an inode file's record says of a file.
#[derive(Clone, Copy, Debug, PartialEq, Eq)]
pub struct Info {
    /// The file's number, below 262,144.
    pub number: u32,
    /// The file's length in blocks, at most 2,097,152.
    pub length: u32,
    /// The file's reserve in blocks, at most 2,097,152.
    pub reserve: u32,
    /// How many levels of nodes the file has, 0 to 3.
    pub levels: u8,
    /// The root pointer, which leads to cell 0 where there are no levels.
    pub root: Pointer,
}

/// Why a call on an inode file failed.
pub type InodeFault = BlockFault;
