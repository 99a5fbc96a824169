//! A session after a failed write.

use fv_aggregate::{Fault, OpenFault, Session};
use fv_disk::Disk;
use fv_memdisk::{Call, MemHost};
use fv_root::format;
use std::alloc::Global;
use std::test::Fail;

/// What two consistency points answer, one after the other.
fn two_points<D: Disk>(alloc: Global, disk: &mut D) -> Result<[Result<(), Fault>; 2], OpenFault> {
    let mut session = Session::open(alloc, disk)?;
    let first = session.consistency_point(disk);
    let second = session.consistency_point(disk);
    Ok([first, second])
}

/// Making the aggregate takes six writes, and the seventh, the first of the point, fails. The second point touches nothing.
#[test]
fn a_session_that_failed_stays_so(rt: HostRuntime) -> Result<(), Fail> {
    let mut host = MemHost::new(rt.alloc(), Vec::new(rt.alloc()));
    assert!(rt; format(&mut host, 1024).is_ok());
    host.fail(Call::Write, 6)?;
    assert_eq!(rt;
        two_points(rt.alloc(), &mut host),
        Ok([Err(Fault::DiskFault), Err(Fault::Failed { faults: 1 })])
    );
    assert_eq!(rt; host.faults(), 1);
    Ok(())
}
