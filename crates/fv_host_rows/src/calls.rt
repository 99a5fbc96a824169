//! The calls of any host, by one byte. A call that fails answers nothing.

use fv_disk::{Disk, Host};

/// Blocks are read into this one, so that what wasn't read shows.
const OLD: [u8; 4096] = [0xaa; 4096];

/// The last byte of a block.
pub fn get<D: Disk>(disk: &mut D, at: u64) -> Option<u8> {
    let mut block = OLD;
    disk.read(at, &mut block).ok()?;
    Some(block[4095])
}

/// Writes a block that has this byte everywhere.
pub fn put<D: Disk>(disk: &mut D, at: u64, byte: u8) -> Option<u8> {
    disk.write(at, &[byte; 4096]).ok()?;
    Some(byte)
}

pub fn settle<D: Disk>(disk: &mut D) -> Option<u8> {
    disk.barrier().ok()?;
    Some(0)
}

/// The next byte, 0 at the end.
pub fn take<H: Host>(host: &mut H) -> Option<u8> {
    let mut byte = [0];
    host.take(&mut byte).ok()?;
    Some(byte[0])
}

/// Gives a byte.
pub fn give<H: Host>(host: &mut H, byte: u8) -> Option<u8> {
    host.give(&[byte]).ok()?;
    Some(byte)
}
