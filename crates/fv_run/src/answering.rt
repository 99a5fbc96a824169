//! Answering the lines of a script, one after another.

ghost use Rattle.std.specs.Prelude.{◌≡◌, length, true};
ghost use Rattle.std.specs.List.{All};
ghost use Rattle.fv_model.specs.Lines.{line_of};
ghost use Rattle.fv_model.specs.Spelling.{is_name};
ghost use Rattle.fv_model.specs.Texts.{text};
ghost use Rattle.fv_aggregate.specs.Answers.{answer};
ghost use Rattle.fv_run.specs.Built.{built};
ghost use Rattle.fv_run.specs.Answering.{AnswersLines, Applies, IsLine, IsReady, TellsLine};

use crate::ending::Fault;
use fv_aggregate::{Session, refuse};
use fv_container::Steps;
use fv_disk::{Failed, Host};
use fv_lines::{Found, Script, next_line};
use fv_model::{Command, Name, Refusal, Reply};
use fv_script::{LineFault, read_into, write_reply};
use std::sync::ledger::Ledger;

/// Answers each line of the script that the host's source has, of at most `limit` bytes, and tells how many there were. Each reply is given
/// before the next line is applied. A command and a reply have the size of a block, so each line is read into the same command and answered
/// in the same reply, and neither is moved.
pub(crate) fn answer_lines<H: Host, L: Ledger>(
    session: &mut Session,
    steps: &mut Steps<L>,
    host: &mut H,
    limit: u64,
) -> Result<u64, Fault>
    requires { IsReady (H.shown host.old) session.old }
    ensures { AnswersLines limit session.old (H.shown host.old) session.new (H.shown host.new) result }
{
    let mut script = Script::new(limit);
    let mut command = Command::Cp;
    let mut reply = Reply::Done;
    let mut count = 0;
    loop {
        let Ok(found) = next_line(&mut script, host) else {
            return Err(Fault::Source);
        };
        match found {
            Found::Line => {
                apply(
                    session,
                    steps,
                    script.line(),
                    host,
                    &mut command,
                    &mut reply,
                )?;
                tell(&reply, host)?;
                count += 1;
            }
            Found::End => return Ok(count),
            Found::PastLimit => return Err(Fault::Limit),
        }
    }
}

/// Applies what a line says to the session, and leaves the reply in `reply` and what it says in `command`; both are open at `Err`.
fn apply<H: Host, L: Ledger>(
    session: &mut Session,
    steps: &mut Steps<L>,
    line: &[u8],
    host: &mut H,
    command: &mut Command,
    reply: &mut Reply,
) -> Result<(), Fault>
    requires { IsReady (H.shown host.old) session.old }
    ensures { Applies session.old (built (line_of line.now)) (H.shown host.old) session.new (H.shown host.new) (answer reply.new result) }
{
    match read_into(line, command) {
        Ok(()) => {
            session.apply_into(host, command, steps, reply)?;
            return Ok(());
        }
        Err(LineFault::Syntax) => {
            refuse(reply, Refusal::Syntax);
            return Ok(());
        }
        Err(LineFault::Range) => {
            refuse(reply, Refusal::Range);
            return Ok(());
        }
    }
}

/// Gives out the line of a reply.
#[tactic(auto, using(crate::proofs::Lines::told, crate::proofs::Lines::untold))]
fn tell<H: Host>(reply: &Reply, host: &mut H) -> Result<(), Fault>
    ensures { TellsLine (H.shown host.old) (text reply.now) (H.shown host.new) result }
{
    prove!(ends_once(reply));
    match write_reply(reply, host) {
        Ok(()) => Ok(()),
        Err(Failed) => Err(Fault::Sink),
    }
}

/// Whether a reply's line ends once, with its last byte: each does, since no name has a byte that ends a line.
#[tactic(auto, using(crate::proofs::Lines::reply_lines))]
fn ends_once(reply: &Reply) -> bool
    ensures is_so { result ≡ true }
    ensures line { IsLine (text reply.now) }
{
    match reply {
        Reply::Names(names) => are_names(names.as_slice()),
        Reply::Done | Reply::Content(_) | Reply::Number(_) | Reply::Stat(_) | Reply::Refused(_) =>
            true,
    }
}

fn are_names(names: &[Name]) -> bool
    ensures is_so { result ≡ true }
    ensures form { All (λ name. is_name name ≡ true) names.now }
{
    for name in names {
        if name.as_bytes().is_empty() {
            return false;
        }
    }
    true
}
