//! Checking an aggregate, and telling of it.

ghost use Rattle.std.specs.Prelude.{◌≡◌};
ghost use Rattle.fv_run.specs.CheckTexts.{fault_text, faults_text, valid_text};
ghost use Rattle.fv_run.specs.Checking.{IsChecked, TellsText};

use crate::ending::Fault;
use crate::verdict::{fault_line, valid_line};
use fv_disk::{Failed, Host, give_all};
use fv_faults::Lines;
use fv_first_pass::Verdict;
use std::alloc::Global;

/// Checks the aggregate of the host's disk, and then tells of it: in one line where it is sound, else in a line for each fault. It
/// gives nothing before the check is done.
pub(crate) fn check<H: Host>(alloc: Global, host: &mut H) -> Result<(), Fault>
    ensures { IsChecked (H.shown host.old) (H.shown host.new) result }
{
    match fv_check::check(alloc, host)? {
        Verdict::Valid { volumes, charged } => tell_valid(volumes, charged, host),
        Verdict::Faults(lines) => {
            tell_faults(&lines, host)?;
            Err(Fault::Unsound)
        }
    }
}

/// Gives out the line of a sound aggregate.
fn tell_valid<H: Host>(volumes: u32, charged: u64, host: &mut H) -> Result<(), Fault>
    ensures { TellsText (H.shown host.old) (valid_text volumes charged) (H.shown host.new) result }
{
    tell(valid_line(volumes, charged).as_str().as_bytes(), host)
}

/// Gives out the lines of faults, one after another.
fn tell_faults<H: Host>(lines: &Lines, host: &mut H) -> Result<(), Fault>
    ensures { TellsText (H.shown host.old) (faults_text lines.now.lines.keys) (H.shown host.new) result }
{
    for fault in lines.lines.iter() {
        tell(fault_line(fault).as_slice(), host)?;
    }
    Ok(())
}

fn tell<H: Host>(text: &[u8], host: &mut H) -> Result<(), Fault>
    ensures { TellsText (H.shown host.old) text.now (H.shown host.new) result }
{
    match give_all(host, text) {
        Ok(()) => Ok(()),
        Err(Failed) => Err(Fault::Sink),
    }
}
