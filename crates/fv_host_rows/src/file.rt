//! The host over a real file: what it holds is outside every clause.

use crate::calls::{get, give, put, settle, take};
use fv_disk::{Disk, Host};
use fv_filehost::FileHost;
use std::test::Fail;

/// What the calls of a host answer, one after another, over a file that isn't there.
fn lived<H: Host>(host: &mut H) -> [Option<u8>; 8] {
    let no_barrier = settle(host);
    let no_block = get(host, 3);
    let put = put(host, 3, 9);
    let settled = settle(host);
    let got = get(host, 3);
    let past = get(host, 9);
    let taken = take(host);
    [
        no_barrier,
        no_block,
        put,
        settled,
        got,
        past,
        taken,
        give(host, b'g'),
    ]
}

/// A missing file is a fault of a barrier and of a read, and a write makes one. A test has no standard input.
#[test]
fn blocks_of_a_file(rt: HostRuntime) -> Result<(), Fail> {
    let path = String::from_str(rt.alloc(), "blocks")?;
    let mut host = FileHost::new(rt.clone()?, path);
    let answers = lived(&mut host);
    let want = [
        None,
        None,
        Some(9),
        Some(0),
        Some(9),
        Some(0),
        Some(0),
        Some(b'g'),
    ];
    assert!(rt; answers == want);
    assert!(rt; (host.faults(), host.write_faults()) == (2, 1));
    Ok(())
}
