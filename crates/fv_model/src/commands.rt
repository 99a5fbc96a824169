use crate::Name;

/// The content of one block: 4096 bytes.
pub type Block = [u8; 4096];

/// A volume's space guarantee.
#[derive(Clone, Copy, Debug, PartialEq, Eq)]
pub enum Kind {
    /// The whole size is set aside; printed `volume`.
    Volume,
    /// What the files' reserves still need is set aside; printed `file`.
    File,
    /// Nothing is set aside; printed `none`.
    Thin,
}

/// A command of the script language. Sizes, reserves, lengths and indexes count blocks.
#[derive(Debug, Drop)]
pub enum Command {
    /// Makes an empty volume.
    VolCreate {
        volume: Name,
        size: u32,
        kind: Kind,
    },
    /// Removes a volume with its snapshots.
    VolDestroy {
        volume: Name,
    },
    /// Sets a volume's size.
    VolResize {
        volume: Name,
        size: u32,
    },
    /// Sets a volume's kind.
    VolGuarantee {
        volume: Name,
        kind: Kind,
    },
    /// Asks for the names of all volumes.
    VolList,
    /// Asks for a volume's numbers.
    VolStat {
        volume: Name,
    },
    /// Makes a file of length 0.
    New {
        volume: Name,
        file: Name,
        reserve: u32,
    },
    /// Writes one cell of a file.
    Put {
        volume: Name,
        file: Name,
        index: u32,
        block: Block,
    },
    /// Asks for the block of one cell, in the active table or in a snapshot.
    Get {
        volume: Name,
        snapshot: Option<Name>,
        file: Name,
        index: u32,
    },
    /// Asks for a file's length.
    Len {
        volume: Name,
        snapshot: Option<Name>,
        file: Name,
    },
    /// Removes a file's cells from a length on, and sets its length to that.
    Cut {
        volume: Name,
        file: Name,
        length: u32,
    },
    /// Removes a file.
    Remove {
        volume: Name,
        file: Name,
    },
    /// Asks for the names of all files.
    Ls {
        volume: Name,
        snapshot: Option<Name>,
    },
    /// Keeps the active table under a name.
    SnapCreate {
        volume: Name,
        snapshot: Name,
    },
    /// Removes a snapshot.
    SnapDelete {
        volume: Name,
        snapshot: Name,
    },
    /// Makes a snapshot's table the active one.
    SnapRestore {
        volume: Name,
        snapshot: Name,
    },
    /// Asks for the names of a volume's snapshots.
    SnapList {
        volume: Name,
    },
    /// Makes a volume that starts as a snapshot of its parent.
    CloneCreate {
        clone: Name,
        parent: Name,
        snapshot: Name,
        size: u32,
        kind: Kind,
    },
    /// Begins to split a clone from its parent.
    SplitStart {
        clone: Name,
    },
    /// Ends the split: the clone has no base any more.
    SplitFinish {
        clone: Name,
    },
    /// Makes a volume that copies a snapshot of another.
    Mirror {
        source: Name,
        snapshot: Name,
        volume: Name,
        size: u32,
        kind: Kind,
    },
    /// Makes a volume known.
    Clean {
        volume: Name,
    },
    /// Asks how many pointers on the path to a cell have an unknown place.
    Probe {
        volume: Name,
        file: Name,
        index: u32,
    },
    /// Lets up to so many background steps run.
    Work {
        steps: u32,
    },
    /// Asks for a consistency point.
    Cp,
}
