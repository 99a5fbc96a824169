//! The laws of the script language: what the product writes reads back, and each command has a line that
//! reads as it.
//!
//! `specs/Show.antt` says how a command is written. The functions here carry the laws as their clauses; they
//! are called by no program.
#![tactic(auto)]

ghost use Rattle.std.specs.Prelude.{◌≡◌, Ok, true};
ghost use Rattle.fv_model.specs.declared.commands.Command.{Command};
ghost use Rattle.fv_model.specs.Lines.{is_in_range};
ghost use Rattle.fv_script_laws.specs.Show.{show, CanShow};
ghost use Rattle.fv_script_laws.specs.Laws.{ReadsBack, RepliesReadBack};

use fv_model::Command;
use fv_script::{LineFault, read_line};

/// Reads a line. One that shows a command, as `show` writes it, is read as that command: its names are names,
/// its block has its bytes, and its number is in its range. Costs what `read_line` does.
pub fn read_shown(line: &[u8]) -> Result<Command, LineFault>
    ensures { (c : Command) → CanShow c → is_in_range c ≡ true → line.now ≡ show c → result ≡ Ok c }
{
    read_line(line)
}

/// A law: the words that are written of a name, a kind, a number, a table and a block read back as what they
/// were written of, and so do the replies that tell a number, a block or names.
#[tactic(auto, using(crate::proofs::Written::reads_back, crate::proofs::Told::replies_read))]
pub fn written_reads_back()
    ensures written { ReadsBack }
    ensures replies { RepliesReadBack }
{}
