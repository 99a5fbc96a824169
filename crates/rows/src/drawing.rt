//! Scripts that are drawn by lot.

use crate::lines::lines_in;
use std::alloc::{AllocError, Global};

/// A sequence of numbers that looks random.
#[derive(Clone, Copy)]
pub struct Lot {
    state: u64,
}

/// The sequence that begins with a seed.
pub fn lot_of(seed: u64) -> Lot {
    Lot { state: seed }
}

impl Lot {
    /// The next number below a bound, which is below 2^32; 0 where the bound is 0. The multiplier is that of Knuth's MMIX.
    pub fn below(&mut self, bound: u64) -> u64 {
        self.state = self
            .state
            .wrapping_mul(6_364_136_223_846_793_005)
            .wrapping_add(1_442_695_040_888_963_407);
        (self.state >> 32).wrapping_mul(bound) >> 32
    }

    fn one_of(&mut self, numbers: &[u64]) -> u64 {
        let at = self.below(numbers.len() as u64);
        match numbers.get(at as usize) {
            Some(number) => *number,
            None => 0,
        }
    }
}

/// What scripts are drawn: how many lines each has, over how many volumes, two to four where that is 0, whether these have snapshots, whether
/// most lines write or remove a few blocks, and whether most volumes begin as clones.
#[derive(Clone, Copy)]
pub struct Drawing {
    pub lines: u64,
    pub over: u64,
    pub snapshots: bool,
    pub removals: bool,
    pub clones: bool,
}

/// A script over a few volumes, with its aggregate's blocks and the lines that ask for what these volumes hold.
#[derive(Drop)]
pub struct Drawn {
    pub blocks: u64,
    pub script: Vec<u8>,
    pub looks: Vec<u8>,
}

/// Both sides of what each level of a file reaches and of a few powers of two, the last index and one past it. Small ones come more often.
const INDEXES: [u64; 20] = [
    0, 0, 0, 0, 1, 1, 1, 2, 3, 127, 128, 128, 129, 511, 512, 16_383, 16_384, 16_385, 2_097_151,
    2_097_152,
];

/// To what a file is cut: mostly to little or nothing.
const CUTS: [u64; 12] = [0, 0, 0, 1, 1, 2, 4, 128, 129, 16_384, 2_097_151, 2_097_152];

/// What a volume is given as another size: mostly one near to what a small volume has or may have, or to twice 300.
const SIZES: [u64; 20] = [
    0, 1, 2, 3, 4, 5, 6, 7, 8, 10, 12, 16, 20, 24, 25, 300, 600, 601, 500_000, 500_001,
];

/// A few files, so that a name is taken and gone in turn.
const FILES: [u64; 8] = [0, 0, 0, 0, 1, 1, 1, 2];

/// Lines that are refused, or make or remove a volume.
const OTHERS: [&str; 13] = [
    "vol create v1 5 none\n",
    "vol create w 2 none\n",
    "vol create x 1 file\n",
    "vol create y 0 volume\n",
    "vol create y 500001 none\n",
    "vol create y 1 thin\n",
    "vol destroy w\n",
    "vol guarantee v0 thin\n",
    "vol stat x\n",
    "put v0 f0 0 1\n",
    "cut v1 f0 2097153\n",
    "get v1 f0\n",
    "\n",
];

/// The script of a seed.
pub fn draw(alloc: Global, seed: u64, kind: Drawing) -> Result<Drawn, AllocError> {
    let mut lot = lot_of(seed);
    let wide = kind.clones || kind.over > 4 || lot.below(4) == 0;
    let volumes = if kind.over != 0 {
        kind.over.saturating_sub(1)
    } else if wide {
        3
    } else {
        lot.below(3).saturating_add(1)
    };
    let mut script = Vec::new(alloc);
    let capacity = if wide { 761 } else { 249 };
    if kind.clones {
        add_clones(alloc, &mut lot, volumes, &mut script)?;
    } else {
        add_volumes(alloc, &mut lot, capacity, volumes, &mut script)?;
    }
    for _ in lines_in(script.as_slice())..kind.lines {
        add_command(alloc, &mut lot, volumes, kind, &mut script)?;
    }
    Ok(Drawn {
        blocks: if wide { 1024 } else { 512 },
        script,
        looks: looks_at(alloc, volumes, kind.snapshots || kind.clones)?,
    })
}

fn add(into: &mut Vec<u8>, line: &str) -> Result<(), AllocError> {
    into.extend_from_slice(line.as_bytes())
}

/// Volumes, each with two files. `v0` leaves them fewer than 24 blocks of what can be committed. In an aggregate of 1024 blocks `v1` has
/// overheads of 165 blocks, so that a point comes between two lines.
fn add_volumes(
    alloc: Global,
    lot: &mut Lot,
    capacity: u64,
    volumes: u64,
    script: &mut Vec<u8>,
) -> Result<(), AllocError> {
    let mut left: u64 = capacity;
    for volume in 1..=volumes {
        let (size, kind, commit) = if capacity > 249 && volume == 1 {
            (20_000, "none", 330)
        } else {
            shape(lot)
        };
        left = left.saturating_sub(commit);
        add(
            script,
            format!(in alloc; "vol create v{volume} {size} {kind}\n")?.as_str(),
        )?;
    }
    let size = left.saturating_sub(lot.below(24)).saturating_sub(40).max(1);
    add(
        script,
        format!(in alloc; "vol create v0 {size} volume\n")?.as_str(),
    )?;
    for volume in 0..=volumes {
        for file in 0..2 {
            add(
                script,
                format!(in alloc; "new v{volume} f{file}\n")?.as_str(),
            )?;
        }
    }
    Ok(())
}

/// Two volumes, each with two files and a snapshot, and the others as clones, each of the snapshot of an earlier volume and with one of its own.
/// In 1024 blocks there is room for six, and for a few more.
fn add_clones(
    alloc: Global,
    lot: &mut Lot,
    volumes: u64,
    script: &mut Vec<u8>,
) -> Result<(), AllocError> {
    add(script, "vol create v0 100 volume\n")?;
    add_parent(alloc, 0, script)?;
    add(script, "vol create v1 300 none\n")?;
    add_parent(alloc, 1, script)?;
    for volume in 2..=volumes {
        let parent = lot.below(volume);
        let (size, kind, _) = shape(lot);
        let line = format!(in alloc; "clone create v{volume} v{parent} s0 {size} {kind}\n")?;
        add(script, line.as_str())?;
        add(
            script,
            format!(in alloc; "snap create v{volume} s0\n")?.as_str(),
        )?;
    }
    Ok(())
}

/// Two files of one block in a volume, and a snapshot of them.
fn add_parent(alloc: Global, volume: u64, script: &mut Vec<u8>) -> Result<(), AllocError> {
    for file in 0..2 {
        add(
            script,
            format!(in alloc; "new v{volume} f{file}\n")?.as_str(),
        )?;
        add(
            script,
            format!(in alloc; "put v{volume} f{file} 0 {file}1\n")?.as_str(),
        )?;
    }
    add(
        script,
        format!(in alloc; "snap create v{volume} s0\n")?.as_str(),
    )
}

/// The size and kind of a volume, and what it commits while it has no file.
fn shape(lot: &mut Lot) -> (u64, &'static str, u64) {
    let size = lot.below(10).saturating_add(3);
    match lot.below(6) {
        0 | 1 => (size, "volume", size.saturating_add(40)),
        2 => (size, "file", 40),
        3 => (size, "none", 40),
        _ => (300, "none", 40),
    }
}

/// The block of a `put`: zeros as a hole has them, zeros, or two bytes.
fn add_content(alloc: Global, lot: &mut Lot, script: &mut Vec<u8>) -> Result<(), AllocError> {
    match lot.below(5) {
        0 => add(script, " -\n"),
        1 => add(script, " 00\n"),
        _ => {
            let digits = lot.below(9000).saturating_add(1000);
            add(script, format!(in alloc; " {digits}\n")?.as_str())
        }
    }
}

/// A line on a file, on names, on a volume, perhaps on a snapshot or a clone, or another one. Some name a volume that isn't there.
fn add_command(
    alloc: Global,
    lot: &mut Lot,
    volumes: u64,
    kind: Drawing,
    script: &mut Vec<u8>,
) -> Result<(), AllocError> {
    let volume = if lot.below(40) == 0 {
        9
    } else {
        lot.below(volumes.saturating_add(1))
    };
    let line = if kind.clones && lot.below(8) == 0 {
        clone_line(alloc, lot, volume, volumes)?
    } else if (kind.snapshots || kind.clones) && lot.below(3) == 0 {
        snapshot_line(alloc, lot, volume)?
    } else if (kind.removals && lot.below(6) != 0) || (kind.clones && lot.below(2) == 0) {
        removal_line(alloc, lot, volume)?
    } else if lot.below(4) == 0 {
        volume_line(alloc, lot, volume)?
    } else {
        file_line(alloc, lot, volume)?
    };
    add(script, line.as_str())?;
    if line.as_str().ends_with('\n') {
        Ok(())
    } else {
        add_content(alloc, lot, script)
    }
}

/// A line that makes a clone of a snapshot of some volume, which may be a clone too, or one that makes or removes what a clone can stand on.
fn clone_line(
    alloc: Global,
    lot: &mut Lot,
    volume: u64,
    volumes: u64,
) -> Result<String, AllocError> {
    let parent = lot.below(volumes.saturating_add(1));
    let snapshot = lot.below(3);
    match lot.below(16) {
        0..=11 => {
            let (size, kind, _) = shape(lot);
            format!(in alloc; "clone create v{volume} v{parent} s{snapshot} {size} {kind}\n")
        }
        12 => format!(in alloc; "vol destroy v{parent}\n"),
        13 => format!(in alloc; "snap delete v{parent} s{snapshot}\n"),
        _ => format!(in alloc; "snap create v{parent} s{snapshot}\n"),
    }
}

/// A line on a volume as a whole. One is made more often than removed, so that most are there.
fn volume_line(alloc: Global, lot: &mut Lot, volume: u64) -> Result<String, AllocError> {
    match lot.below(12) {
        0..=3 => {
            let (size, kind, _) = shape(lot);
            format!(in alloc; "vol create v{volume} {size} {kind}\n")
        }
        4 => format!(in alloc; "vol destroy v{volume}\n"),
        5..=6 => format!(in alloc; "vol stat v{volume}\n"),
        7..=9 => {
            let size = lot.one_of(&SIZES);
            format!(in alloc; "vol resize v{volume} {size}\n")
        }
        _ => {
            let (_, kind, _) = shape(lot);
            format!(in alloc; "vol guarantee v{volume} {kind}\n")
        }
    }
}

/// A line that writes or removes a few of the first 48 blocks of a file, or makes a point: of a volume few entries at a time are freed.
fn removal_line(alloc: Global, lot: &mut Lot, volume: u64) -> Result<String, AllocError> {
    let file = lot.one_of(&FILES);
    let index = lot.below(48);
    match lot.below(20) {
        0..=10 => format!(in alloc; "put v{volume} f{file} {index}"),
        11..=15 => format!(in alloc; "cut v{volume} f{file} {index}\n"),
        16 => format!(in alloc; "rm v{volume} f{file}\n"),
        17..=18 => format!(in alloc; "new v{volume} f{file}\n"),
        _ => format!(in alloc; "cp\n"),
    }
}

/// A line on a snapshot, or one that reads it. A volume has a few, so that a name is taken and gone in turn.
fn snapshot_line(alloc: Global, lot: &mut Lot, volume: u64) -> Result<String, AllocError> {
    let snapshot = lot.below(3);
    let file = lot.one_of(&FILES);
    let index = lot.one_of(&INDEXES);
    match lot.below(16) {
        0..=5 => format!(in alloc; "snap create v{volume} s{snapshot}\n"),
        6..=8 => format!(in alloc; "snap delete v{volume} s{snapshot}\n"),
        9..=10 => format!(in alloc; "snap restore v{volume} s{snapshot}\n"),
        11 => format!(in alloc; "snap list v{volume}\n"),
        12..=13 => format!(in alloc; "get v{volume}@s{snapshot} f{file} {index}\n"),
        14 => format!(in alloc; "len v{volume}@s{snapshot} f{file}\n"),
        _ => format!(in alloc; "ls v{volume}@s{snapshot}\n"),
    }
}

/// A line on a file or on names, or another one; a `put` without its content.
fn file_line(alloc: Global, lot: &mut Lot, volume: u64) -> Result<String, AllocError> {
    let file = lot.one_of(&FILES);
    let index = lot.one_of(&INDEXES);
    let length = lot.one_of(&CUTS);
    let line = match lot.below(24) {
        0..=9 => format!(in alloc; "put v{volume} f{file} {index}")?,
        10..=13 => format!(in alloc; "get v{volume} f{file} {index}\n")?,
        14..=15 => format!(in alloc; "cut v{volume} f{file} {length}\n")?,
        16 => format!(in alloc; "rm v{volume} f{file}\n")?,
        17..=18 => format!(in alloc; "new v{volume} f{file}\n")?,
        19 => format!(in alloc; "len v{volume} f{file}\n")?,
        20 => format!(in alloc; "ls v{volume}\n")?,
        21..=22 => format!(in alloc; "cp\n")?,
        _ => String::from_str(alloc, other(lot))?,
    };
    Ok(line)
}

fn other(lot: &mut Lot) -> &'static str {
    let at = lot.below(OTHERS.len() as u64);
    match OTHERS.get(at as usize) {
        Some(line) => line,
        None => "vol list\n",
    }
}

/// What is asked of a disk: the volumes, what each tells of itself, its files, and of two files the lengths and three blocks; and of snapshots
/// the same.
fn looks_at(alloc: Global, volumes: u64, snapshots: bool) -> Result<Vec<u8>, AllocError> {
    let mut looks = Vec::new(alloc);
    add(&mut looks, "vol list\n")?;
    for volume in 0..=volumes {
        add(
            &mut looks,
            format!(in alloc; "vol stat v{volume}\n")?.as_str(),
        )?;
        look_at_table(alloc, &mut looks, format!(in alloc; "v{volume}")?.as_str())?;
        if snapshots {
            look_at_snapshots(alloc, &mut looks, volume)?;
        }
    }
    Ok(looks)
}

/// What is asked of the snapshots of a volume.
fn look_at_snapshots(alloc: Global, looks: &mut Vec<u8>, volume: u64) -> Result<(), AllocError> {
    add(looks, format!(in alloc; "snap list v{volume}\n")?.as_str())?;
    for snapshot in 0..3 {
        look_at_table(
            alloc,
            looks,
            format!(in alloc; "v{volume}@s{snapshot}")?.as_str(),
        )?;
    }
    Ok(())
}

/// What is asked of a table.
fn look_at_table(alloc: Global, looks: &mut Vec<u8>, table: &str) -> Result<(), AllocError> {
    add(looks, format!(in alloc; "ls {table}\n")?.as_str())?;
    for file in 0..2 {
        add(
            looks,
            format!(in alloc; "len {table} f{file}\nget {table} f{file} 0\n")?.as_str(),
        )?;
    }
    add(looks, format!(in alloc; "get {table} f0 128\n")?.as_str())
}
