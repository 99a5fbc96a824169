//! An inode file, and a plain list of files beside it.

use crate::calls::{change, create, remove};
use fv_codec::Pointer;
use fv_inode::{InodeFault, InodeFile};
use fv_model::Name;
use fv_reference::Tree;
use fv_tree_rows::MemBlocks;
use std::alloc::{AllocError, Global};
use std::collections::BTreeMap;

/// What went wrong.
#[derive(Debug, PartialEq, Eq, Drop)]
pub enum Wrong {
    /// A call failed.
    Fault(InodeFault),
    /// The two aren't equal after the change with this stamp.
    Differs(u64),
}

impl From<InodeFault> for Wrong {
    fn from(fault: InodeFault) -> Wrong {
        Wrong::Fault(fault)
    }
}

impl From<AllocError> for Wrong {
    fn from(_: AllocError) -> Wrong {
        Wrong::Fault(InodeFault::Memory)
    }
}

/// A file of the plain list.
#[derive(Clone, Copy)]
pub struct Plain {
    pub name: Name,
    pub length: u32,
    pub reserve: u32,
}

/// An inode file over its blocks, and the plain list with the machine's tree of the inode file.
#[derive(Drop)]
pub struct Pair {
    pub alloc: Global,
    pub file: InodeFile,
    pub blocks: MemBlocks,
    pub files: BTreeMap<u32, Plain>,
    pub inode: Tree,
}

/// No file.
pub fn new_pair(alloc: Global) -> Pair {
    Pair {
        alloc,
        file: InodeFile::new(alloc),
        blocks: MemBlocks::new(alloc),
        files: BTreeMap::new(alloc),
        inode: Tree::new(alloc, 0),
    }
}

/// The least number that the list lacks.
fn least_free(files: &BTreeMap<u32, Plain>) -> u32 {
    for number in 0..262_144 {
        if !files.contains_key(&number) {
            return number;
        }
    }
    262_144
}

/// The number and the file of a name in the list.
pub fn plain_named(files: &BTreeMap<u32, Plain>, name: &Name) -> Option<(u32, Plain)> {
    for (number, plain) in files {
        if plain.name == *name {
            return Some((*number, *plain));
        }
    }
    None
}

/// Gives a number a file.
fn put(files: &mut BTreeMap<u32, Plain>, number: u32, plain: Plain) -> Result<(), Wrong> {
    match files.insert(number, plain) {
        Ok(_) => Ok(()),
        Err(_) => Err(Wrong::Fault(InodeFault::Memory)),
    }
}

/// Adds a number.
fn push(numbers: &mut Vec<u32>, number: u32) -> Result<(), Wrong> {
    match numbers.push(number) {
        Ok(()) => Ok(()),
        Err(_) => Err(Wrong::Fault(InodeFault::Memory)),
    }
}

/// Makes a file in both.
pub fn create_both(pair: &mut Pair, name: &Name, reserve: u32, stamp: u64) -> Result<(), Wrong> {
    let made = create(&mut pair.file, &mut pair.blocks, name, reserve, stamp)?;
    let number = least_free(&pair.files);
    let plain = Plain {
        name: *name,
        length: 0,
        reserve,
    };
    put(&mut pair.files, number, plain)?;
    pair.inode = pair.inode.written(pair.alloc, stamp, number / 16)?;
    match made {
        Some(info) if info.number == number => Ok(()),
        _ => Err(Wrong::Differs(stamp)),
    }
}

/// Gives a file a length in both.
pub fn change_both(pair: &mut Pair, name: &Name, length: u32, stamp: u64) -> Result<(), Wrong> {
    let done = change(&mut pair.file, &mut pair.blocks, name, length, stamp)?;
    match plain_named(&pair.files, name) {
        None => {
            if done {
                return Err(Wrong::Differs(stamp));
            }
        }
        Some((number, plain)) => {
            put(&mut pair.files, number, Plain { length, ..plain })?;
            pair.inode = pair.inode.written(pair.alloc, stamp, number / 16)?;
        }
    }
    Ok(())
}

/// Takes a file away in both.
pub fn remove_both(pair: &mut Pair, name: &Name, stamp: u64) -> Result<(), Wrong> {
    let done = remove(&mut pair.file, &mut pair.blocks, name, stamp)?;
    match plain_named(&pair.files, name) {
        None => {
            if done {
                return Err(Wrong::Differs(stamp));
            }
        }
        Some((number, _)) => {
            pair.files.remove(&number);
            let mut left = Vec::new(pair.alloc);
            for (other, _) in &pair.files {
                push(&mut left, *other / 16)?;
            }
            let mut gone = Vec::new(pair.alloc);
            push(&mut gone, number / 16)?;
            pair.inode = pair.inode.erased(pair.alloc, stamp, 0, &gone, &left)?;
        }
    }
    Ok(())
}

/// Places what changed, and begins again with what the root spells.
pub fn reopen(pair: &mut Pair) -> Result<(), Wrong> {
    let root = pair.file.flush(&mut pair.blocks, false)?;
    let levels = pair.file.levels();
    pair.file = opened(pair.alloc, levels, root);
    Ok(())
}

/// The inode file that a root spells.
pub fn opened(alloc: Global, levels: u8, root: Pointer) -> InodeFile {
    let fits = root.stamp != 0 && root.vvbn <= 1_048_575 && root.pvbn <= 1_048_575;
    if fits && levels <= 2 {
        InodeFile::at(alloc, levels, root)
    } else {
        InodeFile::new(alloc)
    }
}

/// Whether both say the same of a name.
pub fn agree_on(pair: &mut Pair, name: &Name) -> Result<bool, Wrong> {
    let found = pair.file.find(&mut pair.blocks, name)?;
    Ok(match (found, plain_named(&pair.files, name)) {
        (None, None) => true,
        (Some(info), Some((number, plain))) => {
            info.number == number && info.length == plain.length && info.reserve == plain.reserve
        }
        _ => false,
    })
}

/// Whether both have the same levels, the same names and the same files.
pub fn agree(pair: &mut Pair) -> Result<bool, Wrong> {
    let mut same = u32::from(pair.file.levels()) == pair.inode.levels();
    let names = pair.file.list(&mut pair.blocks)?;
    let mut count: usize = 0;
    for name in names.as_slice() {
        same = same && agree_on(pair, name)? && plain_named(&pair.files, name).is_some();
        count = count.saturating_add(1);
    }
    Ok(same && count == pair.files.len())
}
