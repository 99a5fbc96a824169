//! The script of a seed as text.

ghost use Rattle.std.specs.Prelude.{◌≡◌, ◌<◌, ◌^◌, ℕ, map, length};
ghost use Rattle.fv_model.specs.Lines.{lines};
ghost use Rattle.fv_model.specs.Runs.{Says};
ghost use Rattle.fv_script.specs.Generated.{generated};
ghost use Rattle.fv_script.specs.Telling.{Tells};
ghost use Rattle.fv_saying.specs.Saying.{script_text};

use crate::write::write_command;
use fv_disk::{Failed, Host};
use fv_model::Command;
use fv_script::Generator;

/// Gives out the script of a seed with `count` drawn commands, a line for each command, as `write_command` does; its lines read as those
/// commands, by `generated_reads_back`. At `Err` the sink's count of faults rose, and a prefix was given, never the whole. It takes no memory,
/// and costs a line for each command.
pub fn write_generated<H: Host>(seed: u64, count: u32, host: &mut H) -> Result<(), Failed>
    ensures { Tells (H.shown host.old) (script_text (generated seed count)) (H.shown host.new) result }
{
    let mut script = Generator::new(seed, count);
    let mut command = Command::Cp;
    while script.next_into(&mut command) {
        write_command(&command, host)?;
    }
    Ok(())
}

/// A law: the text of a generated script is a script with just its commands, one a line. It does nothing.
#[tactic(auto, using(crate::proofs::ReadsBack::reads_back))]
pub fn generated_reads_back()
    ensures { (seed : ℕ) → (count : ℕ) → lines (script_text (generated seed count)) ≡ map Says (generated seed count) }
{}
