//! Running the script of a seed on an aggregate.

ghost use Rattle.std.specs.Prelude.{◌≡◌, ◌<◌, ◌≤◌, ◌^◌, cond, length};
ghost use Rattle.fv_model.specs.Runs.{Says};
ghost use Rattle.fv_script.specs.Generated.{generated};
ghost use Rattle.fv_aggregate.specs.Answers.{answer};
ghost use Rattle.fv_run.specs.Answering.{Applies, IsReady};
ghost use Rattle.fv_run.specs.Built.{built};
ghost use Rattle.fv_run.specs.Generating.{AppliesAll, Generates, IsGeneration, TellsSummary, is_accepted, lines_drawn, lines_said};

use crate::ending::Fault;
use fv_aggregate::Session;
use fv_container::Steps;
use fv_disk::{Failed, Host};
use fv_model::{Command, Reply};
use fv_script::{Generator, write_summary};
use std::alloc::Global;
use std::marker::Brand;
use std::sync::ledger::{Blank, Ledger};

/// How many lines were applied, and how many of them accepted.
#[derive(Clone, Copy, Debug)]
pub(crate) struct Tally {
    pub(crate) lines: u64,
    pub(crate) accepted: u64,
}

/// Runs the script of a seed on the aggregate of the host's disk: opens it, applies the nine lines that make a volume and its
/// files and then `count` commands that are drawn, makes a consistency point, and gives
/// `generated N ok A refused R charged C`: the lines, how many of them were accepted and refused, and the sum of the charges of
/// all volumes then, in blocks. It asks nothing of the source, and gives nothing before the last barrier of that point.
///
/// The status is 0 where all was done, 2 where block 0 is no superblock or neither gate is open, 4 or 5 where the sink
/// or the disk failed, 6 where memory ran out, and 8 where a block isn't as it has to be, a label is of a form that can't be
/// loaded yet or fewer blocks or numbers are free than a consistency point asks for. The first of these ends the call at once, without a
/// further consistency point: where no write and no barrier failed the disk is settled then, with the image of a point of the script.
///
/// It costs for each line what `Session::apply_into` does. `docs/MACHINE.md` says how commands are drawn.
pub fn run_generated<H: Host>(alloc: Global, host: &mut H, seed: u64, count: u32) -> u8
    ensures { IsGeneration seed count (H.shown host.old) (H.shown host.new) result }
{
    match generate(alloc, host, seed, count) {
        Ok(()) => 0,
        Err(fault) => fault.status(),
    }
}

/// The same, before a fault becomes a status.
pub(crate) fn generate<H: Host>(
    alloc: Global,
    host: &mut H,
    seed: u64,
    count: u32,
) -> Result<(), Fault>
    ensures { Generates (lines_drawn seed count) (H.shown host.old) (H.shown host.new) result }
{
    let mut script = Generator::new(seed, count);
    run_with::<H, Brand>(alloc, host, &mut script, Blank::new(1))
}

fn run_with<H: Host, L: Ledger>(
    alloc: Global,
    host: &mut H,
    script: &mut Generator,
    blank: Blank,
) -> Result<(), Fault>
    requires few { length script.old < 2 ^ 63 }
    requires name { blank.name ≡ L.name }
    requires parts { blank.parts ≡ L.parts }
    requires some { 0 < L.parts }
    ensures { Generates (lines_said script.old) (H.shown host.old) (H.shown host.new) result }
{
    let mut steps: Steps<L> = Steps::open(blank);
    let mut session = Session::open(alloc, host)?;
    let tally = apply_all(&mut session, &mut steps, host, script)?;
    session.consistency_point(host)?;
    tell_all(tally, session.charged(), host)
}

/// Applies the commands of a script, one after another, and tells how many there were. Each is drawn into the same command and answered in
/// the same reply.
fn apply_all<H: Host, L: Ledger>(
    session: &mut Session,
    steps: &mut Steps<L>,
    host: &mut H,
    script: &mut Generator,
) -> Result<Tally, Fault>
    requires ready { IsReady (H.shown host.old) session.old }
    requires few { length script.old < 2 ^ 63 }
    ensures { AppliesAll (lines_said script.old) session.old (H.shown host.old) session.new (H.shown host.new) result }
{
    let mut command = Command::Cp;
    let mut reply = Reply::Done;
    let mut tally = Tally {
        lines: 0,
        accepted: 0,
    };
    while script.next_into(&mut command) {
        apply(session, steps, &command, host, &mut reply)?;
        tally.lines += 1;
        tally.accepted += count_accepted(&reply);
    }
    Ok(tally)
}

/// Applies a command to the session, and leaves the reply in `reply`; it is open at `Err`.
fn apply<H: Host, L: Ledger>(
    session: &mut Session,
    steps: &mut Steps<L>,
    command: &Command,
    host: &mut H,
    reply: &mut Reply,
) -> Result<(), Fault>
    requires { IsReady (H.shown host.old) session.old }
    ensures { Applies session.old (built (Says command.now)) (H.shown host.old) session.new (H.shown host.new) (answer reply.new result) }
{
    session.apply_into(host, command, steps, reply)?;
    Ok(())
}

/// 1 for a reply that is no refusal, and else 0.
fn count_accepted(reply: &Reply) -> u64
    ensures value { result ≡ cond (is_accepted reply.now) 1 0 }
    ensures most { result ≤ 1 }
{
    match reply {
        Reply::Refused(_) => 0,
        _ => 1,
    }
}

/// Gives out the line that tells of all lines.
fn tell_all<H: Host>(tally: Tally, charged: u64, host: &mut H) -> Result<(), Fault>
    requires { tally.accepted ≤ tally.lines }
    ensures { TellsSummary (H.shown host.old) tally charged (H.shown host.new) result }
{
    let refused = tally.lines - tally.accepted;
    match write_summary(tally.lines, tally.accepted, refused, charged, host) {
        Ok(()) => Ok(()),
        Err(Failed) => Err(Fault::Sink),
    }
}
