//! Answering a line.

ghost use Rattle.std.specs.Prelude.{◌≡◌, IfErr};
ghost use Rattle.fv_model.specs.Lines.{line_of};
ghost use Rattle.fv_model.specs.Runs.{Says};
ghost use Rattle.fv_script.specs.Telling.{Tells, unnamed};
ghost use Rattle.fv_reference_run.specs.Output.{refused, spoken};
ghost use Rattle.fv_reference_run.specs.declared.ending.Fault.TheVariants.{Sink};
ghost use Rattle.fv_reference_run.specs.Answering.{Answers};

use crate::ending::Fault;
use fv_disk::{Failed, Host, give_all};
use fv_model::{Command, Refusal, Reply};
use fv_reference::Machine;
use fv_script::{LineFault, read_line, write_reply};
use std::alloc::Global;

/// The line that stands for a number which the machine leaves open.
const OPEN: &[u8] = b"?\n";

/// Applies what the line says to the machine, and then gives its reply out.
#[tactic(auto, using(crate::proofs::Answered::refuses))]
pub(crate) fn answer<H: Host>(
    alloc: Global,
    machine: &mut Machine,
    line: &[u8],
    host: &mut H,
) -> Result<(), Fault>
    ensures { Answers machine.old (line_of line.now) (H.shown host.old) machine.new (H.shown host.new) result }
{
    match read_line(line) {
        Ok(command) => obey(alloc, machine, &command, host),
        Err(fault) => tell(false, &refused(fault), host),
    }
}

fn refused(fault: LineFault) -> Reply
    ensures { result ≡ refused fault }
{
    match fault {
        LineFault::Syntax => Reply::Refused(Refusal::Syntax),
        LineFault::Range => Reply::Refused(Refusal::Range),
    }
}

#[tactic(auto, using(crate::proofs::Answered::answers, crate::proofs::Answered::wants))]
fn obey<H: Host>(
    alloc: Global,
    machine: &mut Machine,
    command: &Command,
    host: &mut H,
) -> Result<(), Fault>
    ensures { Answers machine.old (Says command.now) (H.shown host.old) machine.new (H.shown host.new) result }
{
    let is_open = machine.is_open(command);
    let Ok(reply) = machine.apply(alloc, command) else {
        return Err(Fault::Memory);
    };
    tell(is_open, &reply, host)
}

/// Gives out the line of a reply, or of a question mark where the machine leaves the number open.
fn tell<H: Host>(is_open: bool, reply: &Reply, host: &mut H) -> Result<(), Fault>
    ensures tells { Tells (H.shown host.old) (spoken is_open reply.now) (H.shown host.new) (unnamed result) }
    ensures sink { IfErr result (λ fault. fault ≡ Sink) }
{
    match write(is_open, reply, host) {
        Ok(()) => Ok(()),
        Err(Failed) => Err(Fault::Sink),
    }
}

fn write<H: Host>(is_open: bool, reply: &Reply, host: &mut H) -> Result<(), Failed>
    ensures { Tells (H.shown host.old) (spoken is_open reply.now) (H.shown host.new) result }
{
    match reply {
        Reply::Number(_) if is_open => give_all(host, OPEN),
        _ => write_reply(reply, host),
    }
}
