//! What a session is opened with.

ghost use Rattle.std.specs.Prelude.{◌≤◌, IsTrue, IfOk, IfErr};
ghost use Rattle.fv_disk.specs.DiskCalls.{OnlyReads};
ghost use Rattle.fv_store.specs.Held.{StandsOn};
ghost use Rattle.fv_image.specs.Held.{view_at};
ghost use Rattle.fv_image.specs.Views.{overheads};
ghost use Rattle.fv_root.specs.Finding.{root_found};
ghost use Rattle.fv_cp.specs.Lent.{blocks_asked};
ghost use Rattle.fv_aggregate.specs.Causes.{HasOpenCause, IsOpenFault};
ghost use Rattle.fv_aggregate.specs.Opening.{AreOpened, IsFresh, IsOpened};

use crate::delays::has_more;
use crate::fault::OpenFault;
use crate::session::Session;
use fv_disk::Disk;
use fv_root::find_root;
use fv_volume::Pool;
use fv_volumes::Volumes;
use std::alloc::Global;

/// Reads the aggregate on a disk.
pub(crate) fn load<D: Disk>(alloc: Global, disk: &mut D) -> Result<Session, OpenFault>
    ensures loaded { IsTrue (D.shown disk.old).tells → IfOk result (IsOpened (D.shown disk.old).reads) }
    ensures asked { IsTrue (D.shown disk.old).tells → IfOk result (λ session. blocks_asked session.volumes ≤ overheads (view_at (root_found session.pool.found) (D.shown disk.old).reads)) }
    ensures each { IfOk result (AreOpened (D.shown disk.new) (D.shown disk.old).reads) }
    ensures cache { IfOk result (λ session. StandsOn (D.shown disk.new) session.pool.store.pairs) }
    ensures fresh { IfOk result IsFresh }
    ensures fault { IsTrue (D.shown disk.old).tells → IfErr result (IsOpenFault (D.shown disk.old).reads) }
    ensures only_reads { OnlyReads (D.shown disk.old) (D.shown disk.new) }
    ensures cause { HasOpenCause (D.shown disk.old).faults (D.shown disk.new).faults result }
{
    let found = find_root(disk)?;
    let mut pool = Pool::open(alloc, disk, found)?;
    let volumes = Volumes::open(alloc, &mut pool, disk)?;
    let commits = volumes.commits();
    let delayed = has_more(alloc, &pool, &volumes)?;
    Ok(Session {
        alloc,
        volumes,
        pool,
        delays: [delayed; 64],
        pending: 0,
        commits,
        failed: None,
    })
}
