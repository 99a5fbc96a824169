//! Running a script on an aggregate.

ghost use Rattle.std.specs.Prelude.{◌≡◌, ◌<◌};
ghost use Rattle.fv_model.specs.Texts.{done_text};
ghost use Rattle.fv_run.specs.Answering.{TellsLine};
ghost use Rattle.fv_run.specs.Running.{IsRun, Ran};

use crate::answering::answer_lines;
use crate::ending::Fault;
use fv_aggregate::Session;
use fv_container::Steps;
use fv_disk::{Failed, Host};
use fv_script::write_done;
use std::alloc::Global;
use std::marker::Brand;
use std::sync::ledger::{Blank, Ledger};

/// Runs the script of the host's source on the aggregate of its disk: opens it, applies one line after another and gives their replies in
/// this order, makes a consistency point, and gives `done` with the number of replies. The reply to `cp` and the last line come after the
/// last barrier of their point. Where all was done a point stands behind all lines, also where there is none, and the generation of the
/// root has risen by as many as were made. A `probe` before which each line only asks, is a `cp` or is refused answers by the image at
/// entry how many pointers on the path to its cell are unknown. Where each line only asks, is a `cp` or a `work`, or is refused, background
/// steps have less to do behind a run that did all: less by as many steps at least as its `work` lines ask for, or nothing at all.
///
/// The status is 0 where all was done, 2 where block 0 is no superblock or neither gate is open, 3, 4 or 5
/// where the source, the sink or the disk failed, 6 where memory ran out, 8 where a block isn't as it has to
/// be, a label is of a form that can't be loaded yet or fewer blocks or numbers are free than a consistency point asks for,
/// and 9 where the source gave byte `limit + 1` of the script. The first of these ends the call at once, without a
/// further consistency point: where no write and no barrier failed the disk is settled then, with the image of the last acknowledged
/// point, or of one that a later line asked for: a `cp`, a line whose room passes the dirty limit with the rooms behind the last `cp`, or
/// the end of the script.
/// However it ends, each line that was read is answered but for the one at work, and of what the source gave at most 65,536 bytes
/// aren't read; where the source failed all is read and answered. An end doesn't show whether a reply was kept for the fault that ends
/// the run. That no point follows a fault in a line that asks for one the tests show.
/// It holds 98,304 bytes of the script beside the session, and costs for each line what `Session::apply` does.
pub fn run_script<H: Host>(alloc: Global, host: &mut H, limit: u64) -> u8
    ensures { IsRun limit (H.shown host.old) (H.shown host.new) result }
{
    match run(alloc, host, limit) {
        Ok(()) => 0,
        Err(fault) => fault.status(),
    }
}

/// The same, before a fault becomes a status.
pub(crate) fn run<H: Host>(alloc: Global, host: &mut H, limit: u64) -> Result<(), Fault>
    ensures { Ran limit (H.shown host.old) (H.shown host.new) result }
{
    run_with::<H, Brand>(alloc, host, limit, Blank::new(1))
}

fn run_with<H: Host, L: Ledger>(
    alloc: Global,
    host: &mut H,
    limit: u64,
    blank: Blank,
) -> Result<(), Fault>
    requires name { blank.name ≡ L.name }
    requires parts { blank.parts ≡ L.parts }
    requires some { 0 < L.parts }
    ensures { Ran limit (H.shown host.old) (H.shown host.new) result }
{
    let mut steps: Steps<L> = Steps::open(blank);
    let mut session = Session::open(alloc, host)?;
    let count = answer_lines(&mut session, &mut steps, host, limit)?;
    session.consistency_point(host)?;
    tell_count(count, host)
}

/// Gives out the last line: it tells how many lines were answered.
#[tactic(auto, using(crate::proofs::Lines::told, crate::proofs::Lines::untold, crate::proofs::Lines::count_line))]
fn tell_count<H: Host>(count: u64, host: &mut H) -> Result<(), Fault>
    ensures { TellsLine (H.shown host.old) (done_text count) (H.shown host.new) result }
{
    match write_done(count, host) {
        Ok(()) => Ok(()),
        Err(Failed) => Err(Fault::Sink),
    }
}
