//! Bytes of the standard streams.

ghost use Rattle.std.specs.Prelude.{◌<◌, ◌≤◌, length, IfOk};

use fv_disk::Failed;
use std::io;
use std::io::{ErrorKind, Read, Write};

/// Reads some bytes, 0 of them only at the end of the input.
pub(crate) fn read_some<R: Input>(rt: &R, into: &mut [u8]) -> Result<usize, Failed>
    ensures { IfOk result (λ n. n ≤ length into.new) }
{
    let mut reader = rt.reader();
    for _ in 0..u64::MAX {
        match reader.read(into) {
            Ok(count) => return Ok(count),
            Err(e) if e.kind() == ErrorKind::Interrupted => {}
            Err(_) => return Err(Failed),
        }
    }
    Err(Failed)
}

/// Writes some of the bytes, at least one, and flushes.
pub(crate) fn write_some<R: Print>(rt: &R, bytes: &[u8]) -> Result<usize, Failed>
    requires { 0 < length bytes.now }
    ensures { IfOk result (λ n. (0 < n) × (n ≤ length bytes.now)) }
{
    let mut writer = io::writer(rt);
    for _ in 0..u64::MAX {
        match writer.write(bytes) {
            Ok(0) => return Err(Failed),
            Ok(count) => return writer.flush().map(|()| count).map_err(|_| Failed),
            Err(e) if e.kind() == ErrorKind::Interrupted => {}
            Err(_) => return Err(Failed),
        }
    }
    Err(Failed)
}
