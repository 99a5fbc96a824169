//! Rows of inode files.

use crate::tests::beside::{
    Pair, Wrong, agree, agree_on, change_both, create_both, new_pair, opened, remove_both, reopen,
};
use fv_inode::{InodeFault, InodeFile};
use fv_model::Name;
use std::alloc::Global;
use std::test::Fail;

/// The name of a number: so many letters that spell it.
fn name_of(number: u64, length: usize) -> Result<Name, Wrong> {
    let mut bytes = [97; 64];
    let mut rest = number;
    for place in 0..8_usize {
        bytes[place] = 97 + (rest % 16) as u8;
        rest /= 16;
    }
    let length = if length > 64 { 64 } else { length };
    match Name::read(&bytes[..length]) {
        Some(name) => Ok(name),
        None => Err(Wrong::Differs(number)),
    }
}

/// A pair with so many files, read anew from its blocks.
fn filled(alloc: Global, count: u64) -> Result<Pair, Wrong> {
    let mut pair = new_pair(alloc);
    for number in 0..count {
        create_both(&mut pair, &name_of(number, 8)?, 0, number + 1)?;
    }
    reopen(&mut pair)?;
    Ok(pair)
}

/// The next number of a sequence that looks random, below 2^31.
fn next(state: &mut u64) -> u64 {
    *state = state
        .wrapping_mul(6_364_136_223_846_793_005)
        .wrapping_add(1_442_695_040_888_963_407);
    *state >> 33
}

/// Changes both at random, and tells whether they are equal after each change.
fn run(alloc: Global, steps: u64) -> Result<(), Wrong> {
    let mut pair = new_pair(alloc);
    let mut state = 29;
    for stamp in 1..steps {
        let name = name_of(next(&mut state) % 48, 64)?;
        if next(&mut state) % 3 == 0 {
            remove_both(&mut pair, &name, stamp)?;
        } else {
            let length = (next(&mut state) % 1000) as u32;
            step(&mut pair, &name, length, stamp)?;
        }
        if !agree_on(&mut pair, &name)? || stamp % 10 == 0 && !agree(&mut pair)? {
            return Err(Wrong::Differs(stamp));
        }
        if stamp % 97 == 0 {
            reopen(&mut pair)?;
        }
    }
    Ok(())
}

/// Makes a file, or changes it where there is one.
fn step(pair: &mut Pair, name: &Name, length: u32, stamp: u64) -> Result<(), Wrong> {
    let found = pair.file.find(&mut pair.blocks, name)?;
    if found.is_some() {
        change_both(pair, name, length, stamp)
    } else {
        create_both(pair, name, length, stamp)
    }
}

/// How many blocks a look-up loads in a file of so many files, and whether it finds the name.
fn loads(alloc: Global, count: u64, number: u64) -> Result<(u64, bool), Wrong> {
    let mut pair = filled(alloc, count)?;
    let before = pair.blocks.calls();
    let found = pair.file.find(&mut pair.blocks, &name_of(number, 8)?)?;
    Ok((pair.blocks.calls().saturating_sub(before), found.is_some()))
}

/// What a look-up answers where its n-th load fails, and whether the next one is right.
fn failed(alloc: Global, count: u64, call: u64) -> Result<(Option<InodeFault>, bool), Wrong> {
    let mut pair = filled(alloc, count)?;
    let name = name_of(count.saturating_sub(1), 8)?;
    let next = pair.blocks.calls().saturating_add(call);
    pair.blocks.fail(next);
    let fault = match pair.file.find(&mut pair.blocks, &name) {
        Ok(_) => None,
        Err(fault) => Some(fault),
    };
    Ok((fault, agree_on(&mut pair, &name)?))
}

/// The levels with so many files, and whether both are equal.
fn levels(alloc: Global, count: u64) -> Result<(u8, bool), Wrong> {
    let mut pair = filled(alloc, count)?;
    Ok((pair.file.levels(), agree(&mut pair)?))
}

/// Files 3 and 20 go and come back under other names; then all go.
fn holes(alloc: Global) -> Result<bool, Wrong> {
    let mut pair = filled(alloc, 33)?;
    remove_both(&mut pair, &name_of(20, 8)?, 50)?;
    remove_both(&mut pair, &name_of(3, 8)?, 51)?;
    create_both(&mut pair, &name_of(100, 64)?, 5, 52)?;
    create_both(&mut pair, &name_of(101, 1)?, 200, 53)?;
    let mut same = agree(&mut pair)?;
    for number in 0..33 {
        remove_both(&mut pair, &name_of(number, 8)?, 60)?;
        same = same && agree(&mut pair)?;
    }
    remove_both(&mut pair, &name_of(100, 64)?, 61)?;
    remove_both(&mut pair, &name_of(101, 1)?, 62)?;
    reopen(&mut pair)?;
    Ok(same && agree(&mut pair)? && pair.file.levels() == 0 && pair.blocks.gone().1 == 0)
}

#[test]
fn numbers(rt: HostRuntime) -> Result<(), Fail> {
    let rows = [(0, 0), (1, 0), (16, 0), (17, 1), (70, 1)];
    for (count, wanted) in rows {
        assert_eq!(rt; levels(rt.alloc(), count), Ok((wanted, true)));
    }
    Ok(())
}

#[test]
fn look_ups(rt: HostRuntime) -> Result<(), Fail> {
    let rows = [
        (1, 0, (1, true)),
        (16, 16, (1, false)),
        (17, 0, (2, true)),
        (17, 16, (4, true)),
        (17, 17, (130, false)),
    ];
    for (count, number, wanted) in rows {
        assert_eq!(rt; loads(rt.alloc(), count, number), Ok(wanted));
    }
    Ok(())
}

#[test]
fn failing_loads(rt: HostRuntime) -> Result<(), Fail> {
    let fault = Some(InodeFault::DiskFault);
    for call in 0..4 {
        assert_eq!(rt; failed(rt.alloc(), 17, call), Ok((fault, true)));
    }
    Ok(())
}

#[test]
fn removals_and_random_changes(rt: HostRuntime) -> Result<(), Fail> {
    assert_eq!(rt; holes(rt.alloc()), Ok(true));
    assert_eq!(rt; run(rt.alloc(), 2000), Ok(()));
    Ok(())
}
