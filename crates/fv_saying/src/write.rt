//! Writing a command.

ghost use Rattle.std.specs.Prelude.{◌≡◌, ◌++◌, true};
ghost use Rattle.fv_disk.specs.Shown.{IsBlock};
ghost use Rattle.fv_model.specs.Lines.{is_in_range, line_of};
ghost use Rattle.fv_model.specs.Runs.{Says};
ghost use Rattle.fv_model.specs.Texts.{text};
ghost use Rattle.fv_script.specs.Telling.{Tells};
ghost use Rattle.fv_script_laws.specs.Show.{show};
ghost use Rattle.fv_saying.specs.Saying.{said};

use crate::spelling::spelled;
use fv_disk::{Failed, Host, give_all};
use fv_model::{Block, Command, Reply};
use fv_script::write_reply;

/// Gives out the line that says the command, with its end: its words with one space between, numbers in decimal, and a block as the
/// reply to `get` tells it. Where its number is in its range the line reads as the command.
///
/// At `Err` the sink's count of faults rose, and a prefix of the line was given, never the whole. It takes no memory. A line is handed to the
/// sink in one piece, and the block of a `put` in another; it costs by the line's bytes, and a block is copied once.
pub fn write_command<H: Host>(command: &Command, host: &mut H) -> Result<(), Failed>
    ensures told { Tells (H.shown host.old) (said command.now) (H.shown host.new) result }
    ensures reads { is_in_range command.now ≡ true → line_of (show command.now) ≡ Says command.now }
{
    let line = spelled(command);
    match command {
        Command::Put { block, .. } => write_both(line.as_slice(), block, host),
        _ => give_all(host, line.as_slice()),
    }
}

/// Gives out the words of a line, and then its block.
fn write_both<H: Host>(words: &[u8], block: &Block, host: &mut H) -> Result<(), Failed>
    ensures told { Tells (H.shown host.old) (words.now ++ text (Reply.Content block.now)) (H.shown host.new) result }
    ensures block { IsBlock block.now }
{
    give_all(host, words)?;
    write_reply(&Reply::Content(*block), host)
}
