//! Random commands on three volumes, with the plain machine beside them.

use crate::beside::{Pair, Row, agrees, name};
use crate::calls::flush;
use crate::wrong::Wrong;
use fv_model::{Command, Name};

/// Volumes of each kind: `a` fills soon, and `z` leaves 13 blocks for `b` and `c`.
pub const VOLUMES: [Row; 4] = [
    (b"vol create a 14 volume", b"ok"),
    (b"vol create b 500 none", b"ok"),
    (b"vol create c 30 file", b"ok"),
    (b"vol create z 574 volume", b"ok"),
];

/// Both sides of what each level reaches, and the last index and one past it.
const INDEXES: [u32; 12] = [
    0, 1, 2, 3, 127, 128, 129, 16_383, 16_384, 16_385, 2_097_151, 2_097_152,
];

/// The next number of a sequence that looks random, below 2^31.
fn next(state: &mut u64) -> u64 {
    *state = state
        .wrapping_mul(6_364_136_223_846_793_005)
        .wrapping_add(1_442_695_040_888_963_407);
    *state >> 33
}

/// The name of one letter, so many after another one.
fn letter(first: u8, after: u64) -> Result<Name, Wrong> {
    name(&[first.wrapping_add((after % 8) as u8)])
}

/// An index: mostly a small one.
fn index(state: &mut u64) -> u32 {
    if next(state) % 8 == 0 {
        INDEXES[(next(state) % 12) as usize]
    } else {
        INDEXES[(next(state) % 7) as usize]
    }
}

/// A change of a file.
fn change(state: &mut u64, volume: Name, file: Name) -> Command {
    match next(state) % 12 {
        0..=1 => Command::New {
            volume,
            file,
            reserve: 0,
        },
        2 => Command::Remove { volume, file },
        3 => Command::Cut {
            volume,
            file,
            length: index(state),
        },
        _ => Command::Put {
            volume,
            file,
            index: index(state),
            block: [(next(state) % 256) as u8; 4096],
        },
    }
}

/// A question about a file or a volume.
fn question(state: &mut u64, volume: Name, file: Name) -> Command {
    let snapshot = None;
    match next(state) % 6 {
        0 => Command::Len {
            volume,
            snapshot,
            file,
        },
        1 => Command::Ls { volume, snapshot },
        2 => Command::VolStat { volume },
        _ => Command::Get {
            volume,
            snapshot,
            file,
            index: index(state),
        },
    }
}

/// A command: two changes for a question.
fn command(state: &mut u64) -> Result<Command, Wrong> {
    let volume = letter(b'a', next(state) % 3)?;
    let file = letter(b'f', next(state) % 5)?;
    if next(state) % 3 == 0 {
        Ok(question(state, volume, file))
    } else {
        Ok(change(state, volume, file))
    }
}

/// Whether both tell the same names of a volume.
fn agree_on_names(pair: &mut Pair, volume: Name) -> Result<bool, Wrong> {
    let snapshot = None;
    agrees(pair, &Command::Ls { volume, snapshot })
}

/// Whether both tell the same numbers of a volume.
fn agree_on_numbers(pair: &mut Pair, volume: Name) -> Result<bool, Wrong> {
    agrees(pair, &Command::VolStat { volume })
}

/// Whether both tell the same of a volume.
fn agree_on_volume(pair: &mut Pair, word: &[u8]) -> Result<bool, Wrong> {
    let volume = name(word)?;
    let names = agree_on_names(pair, volume)?;
    let numbers = agree_on_numbers(pair, volume)?;
    Ok(numbers && names)
}

/// The same of the three volumes.
pub fn agree_on_volumes(pair: &mut Pair) -> Result<bool, Wrong> {
    let first = agree_on_volume(pair, b"a")?;
    let second = agree_on_volume(pair, b"b")?;
    let third = agree_on_volume(pair, b"c")?;
    Ok(first && second && third)
}

/// Whether both answer the next command alike.
fn agrees_next(pair: &mut Pair, state: &mut u64) -> Result<bool, Wrong> {
    match command(state) {
        Ok(command) => agrees(pair, &command),
        Err(wrong) => Err(wrong),
    }
}

/// Applies the next command to both, and places what changed in a volume now and then. Whether the replies are equal.
fn step(pair: &mut Pair, state: &mut u64, number: u32) -> Result<bool, Wrong> {
    let mut same = agrees_next(pair, state)?;
    if number % 40 == 13 {
        flush(&mut pair.opened, (next(state) % 3) as u8)?;
    }
    if number % 25 == 0 {
        let told = agree_on_volumes(pair)?;
        same = same && told;
    }
    Ok(same)
}

/// Applies so many commands to both, with equal replies.
pub fn run(pair: &mut Pair, seed: u64, count: u32) -> Result<(), Wrong> {
    let mut state = seed;
    for number in 0..count {
        if !step(pair, &mut state, number)? {
            return Err(Wrong::Differs(number as usize));
        }
    }
    Ok(())
}
