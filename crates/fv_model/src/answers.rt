ghost use Rattle.std.specs.Prelude.{◌≡◌};
ghost use Rattle.fv_model.specs.Numbers.{number_of};

use crate::{Block, Kind, Names};

/// A volume's numbers, in blocks.
#[derive(Clone, Copy, Debug, PartialEq, Eq)]
pub struct Stat {
    /// The size.
    pub size: u32,
    /// The charge.
    pub used: u32,
    /// The blocks that the files' reserves still need.
    pub need: u32,
    /// What the volume commits of its aggregate.
    pub commit: u64,
    /// The space guarantee.
    pub kind: Kind,
    /// Whether every place is known.
    pub clean: bool,
}

/// Why a command is refused, in the order of the numbers 1 to 16.
#[derive(Clone, Copy, Debug, PartialEq, Eq)]
pub enum Refusal {
    /// 1: the line is no command.
    Syntax,
    /// 2: there is no such volume.
    NoVolume,
    /// 3: the volume to be made exists.
    VolumeExists,
    /// 4: the table has no such file.
    NoFile,
    /// 5: the table has the file to be made.
    FileExists,
    /// 6: the volume has no such snapshot.
    NoSnapshot,
    /// 7: the volume has the snapshot to be made.
    SnapshotExists,
    /// 8: the volume's use would pass its size.
    VolumeFull,
    /// 9: the commits would pass the aggregate's capacity.
    AggregateFull,
    /// 10: a number is outside its range.
    Range,
    /// 11: there are too many volumes, snapshots, files or changes.
    TooMany,
    /// 12: a clone stands on the snapshot.
    SnapshotInUse,
    /// 13: a clone stands on the volume, or the volume is being split.
    VolumeInUse,
    /// 14: the volume is no clone that the command fits.
    NotClone,
    /// 15: the parent isn't known.
    ParentNotClean,
    /// 16: a reserve needs a volume of kind `file`.
    WrongKind,
}

impl Refusal {
    /// The refusal's number, 1 to 16.
    pub fn number(&self) -> u8
        ensures { result ≡ number_of self.now }
    {
        match self {
            Refusal::Syntax => 1,
            Refusal::NoVolume => 2,
            Refusal::VolumeExists => 3,
            Refusal::NoFile => 4,
            Refusal::FileExists => 5,
            Refusal::NoSnapshot => 6,
            Refusal::SnapshotExists => 7,
            Refusal::VolumeFull => 8,
            Refusal::AggregateFull => 9,
            Refusal::Range => 10,
            Refusal::TooMany => 11,
            Refusal::SnapshotInUse => 12,
            Refusal::VolumeInUse => 13,
            Refusal::NotClone => 14,
            Refusal::ParentNotClean => 15,
            Refusal::WrongKind => 16,
        }
    }
}

/// The machine's answer to a command.
#[derive(Debug, Drop)]
pub enum Reply {
    /// The command was carried out.
    Done,
    /// The content of a cell.
    Content(Block),
    /// A length or a count.
    Number(u64),
    /// Names in byte order.
    Names(Names),
    /// A volume's numbers.
    Stat(Stat),
    /// The command was refused and changed nothing.
    Refused(Refusal),
}
