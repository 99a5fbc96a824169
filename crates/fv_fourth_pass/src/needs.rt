//! What the reserves of a volume's files still need: the blocks that writes below them can still take.

ghost use Rattle.std.specs.Prelude.{◌≡◌, ◌≤◌, ◌<◌, ◌+◌, ◌-◌, ◌*◌, ◌^◌, ◌==◌, ℕ, Ok, Some, length, min, sum_by, IfOk};
ghost use Rattle.fv_bits.specs.Members.{is_member};
ghost use Rattle.fv_fourth_pass.specs.Needed.{is_standing, one_if, ranges, ranges_at, reserved_below, reserved_of, shared_over};
ghost use Rattle.fv_fourth_pass.specs.Needing.{IsRaised};

use crate::tally::has;
use fv_bits::BitMap;
use fv_codec::{InodeRecord, Label, Pointer};
use fv_walk::{Below, Found, Table, Visit, Visitor};
use std::alloc::AllocError;

/// The kind of volumes whose files' reserves are guaranteed, in a label.
const BY_FILE: u8 = 1;

/// More blocks than any volume's reserves need.
const MOST: u64 = 1 << 55;

/// The record of no file.
const FREE: InodeRecord = InodeRecord {
    name_length: 0,
    name: [0; 64],
    length: 0,
    reserve: 0,
    levels: 0,
    root: Pointer::HOLE,
};

/// Counts the places that reserves stand for, along the pointers of an active table.
#[derive(Drop)]
pub(crate) struct NeedTally {
    /// The VVBNs that a snapshot or the base table reaches, too.
    pub shared: BitMap,
    /// Whether that of the table's root is among them.
    pub top: bool,
    /// The records of the inode block that was shown last.
    pub files: [InodeRecord; 16],
    /// How many places of files' trees the reserves stand for, and how many of those over the files' records are shared.
    pub reserved: u64,
    /// How many of those places of files' trees have a block that isn't shared.
    pub standing: u64,
}

impl NeedTally {
    /// Counts of 0, for the walk along a table.
    pub fn new(shared: BitMap, table: &Table) -> NeedTally
        ensures shared { result.shared ≡ shared }
        ensures top { result.top ≡ is_member shared table.now.root.vvbn }
        ensures zero { (result.reserved ≡ 0) × (result.standing ≡ 0) }
    {
        let top = has(&shared, table.root.vvbn);
        NeedTally {
            shared,
            top,
            files: [FREE; 16],
            reserved: 0,
            standing: 0,
        }
    }

    /// How many places a write takes a block at; at most 2^55.
    pub fn needed(&self) -> u64
        ensures exact { result ≡ min (self.now.reserved - self.now.standing) (2 ^ 55) }
        ensures most { result ≤ 2 ^ 55 }
    {
        self.reserved.saturating_sub(self.standing).min(MOST)
    }
}

/// Whether the reserves of a volume's files are guaranteed.
pub(crate) fn is_by_file(label: &Label) -> bool
    ensures { result ≡ (label.entry.now.kind == 1) }
{
    label.kind == BY_FILE
}

/// How many ranges of a level meet the indexes below a reserve.
fn ranges_at(reserve: u32, level: u16) -> u32
    ensures { result ≡ ranges_at reserve level }
{
    if level == 0 {
        return reserve;
    }
    ranges_at(reserve, level - 1).div_ceil(128)
}

/// Those of all levels of a tree.
fn ranges(reserve: u32, levels: u8) -> u64
    ensures exact { result ≡ ranges reserve levels }
    ensures few { result < 2 ^ 40 }
{
    let mut count = 0;
    for level in 0..u16::from(levels) + 1 {
        count += u64::from(ranges_at(reserve, level));
    }
    count
}

/// 1 where something is so, and else 0.
fn one_if(so: bool) -> u64
    ensures { result ≡ one_if so }
{
    if so { 1 } else { 0 }
}

/// How many of the blocks over the records of an inode block are shared, itself among them, where a pointer leads to it.
fn shared_over(shared: &BitMap, top: bool, visit: &Visit) -> u64
    ensures exact { result ≡ shared_over shared.now top visit.now }
    ensures few { result ≤ 3 }
{
    let own = one_if(has(shared, visit.pointer.vvbn));
    let node = if visit.levels > 0 {
        one_if(has(shared, visit.holder.vvbn))
    } else {
        0
    };
    let root = if visit.levels > 1 { one_if(top) } else { 0 };
    own + (node + root)
}

/// The places that a record's reserve stands for in the tree of its file, and those over the record that are shared.
fn reserved_of(over: u64, record: &InodeRecord) -> u64
    requires { over ≤ 3 }
    ensures exact { result ≡ reserved_of over record.now }
    ensures few { result < 2 ^ 41 }
{
    if record.name_length == 0 || record.reserve == 0 {
        return 0;
    }
    ranges(record.reserve, record.levels) + over
}

/// Those of the records of an inode block.
fn reserved_by(over: u64, files: &[InodeRecord]) -> u64
    requires over { over ≤ 3 }
    requires few { length files.now ≤ 16 }
    ensures { result ≡ sum_by (reserved_of over) files.now }
{
    let mut count = 0;
    for k in 0..files.len() {
        count += reserved_of(over, &files[k]);
    }
    count
}

/// Those of the records in the block to which a pointer leads.
fn reserved_below(over: u64, below: &Below) -> u64
    requires { over ≤ 3 }
    ensures { result ≡ reserved_below over below.now }
{
    match below {
        Below::Inodes(block) => reserved_by(over, &block.files),
        Below::Nothing => 0,
        Below::Node(_) => 0,
    }
}

/// Whether a pointer is to a place of a file's tree that its reserve stands for, and to a block that isn't shared. `files` are the records
/// of the inode block over it.
fn is_standing(shared: &BitMap, files: &[InodeRecord; 16], visit: &Visit) -> bool
    ensures { result ≡ is_standing shared.now files.now visit.now }
{
    if visit.owner == u64::MAX {
        return false;
    }
    let slot = (visit.owner % 16) as usize;
    visit.place < u64::from(ranges_at(files[slot].reserve, u16::from(visit.level)))
        && !has(shared, visit.pointer.vvbn)
}

/// Raises a count, which is exact as long as it fits its word.
fn raise(count: u64, more: u64) -> u64
    ensures { IsRaised count more result }
{
    count.saturating_add(more)
}

impl Visitor for NeedTally {
    ghost use Rattle.fv_fourth_pass.specs.Needing.{Needs, needs_none, needs_on};

    ghost sees = { Needs };

    fn see(&mut self, visit: &Visit, _at: Option<Found>, below: &Below) -> Result<(), AllocError> {
        let over = shared_over(&self.shared, self.top, visit);
        let standing = one_if(is_standing(&self.shared, &self.files, visit));
        self.reserved = raise(self.reserved, reserved_below(over, below));
        self.standing = raise(self.standing, standing);
        if let Below::Inodes(block) = below {
            self.files = block.files;
        }
        Ok(())
    }

    ghost sees_none = { needs_none };

    ghost sees_on = { needs_on };
}
