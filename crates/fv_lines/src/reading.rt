//! The lines of a script, one after another.

ghost use Rattle.std.specs.Prelude.{◌≡◌, true};
ghost use Rattle.fv_lines.specs.Reading.{Finds, found_last};

use crate::script::{Next, Script};
use fv_disk::{Failed, Host};

/// What comes next in a script.
#[derive(Clone, Copy, Debug, PartialEq, Eq)]
pub enum Found {
    /// A line.
    Line,
    /// The end of the script.
    End,
    /// A byte past the limit, and no line that ends before it.
    PastLimit,
}

/// Reads the next line of the script; `Script::line` then has it, without its end, where it was taken. Of a longer line than a command
/// can be it keeps at least the 9001 bytes that show so; the others may be forgotten. Bytes with no end behind them
/// are a line where the script ends, and none where the limit cuts them off.
///
/// At `Err` the source failed, and what of the line was read by then is lost. It takes no memory, and asks
/// the source for at most 65,536 bytes at once, only where all that it gave before were read. Once the source
/// has said that it ends, it isn't asked again. It looks at each byte at most twice, and no byte is copied but those of a line that has to move to
/// the front of the 98,304 bytes that are held, at most 9001 for each 23,000 that are taken.
#[tactic(auto, using(crate::proofs::LinesRead::begins, crate::proofs::LinesRead::reads_on, crate::proofs::LinesRead::found_line, crate::proofs::LinesRead::found_end, crate::proofs::LinesRead::found_limit, crate::proofs::LinesRead::found_fault))]
pub fn next_line<H: Host>(script: &mut Script, host: &mut H) -> Result<Found, Failed>
    ensures finds { Finds script.old (H.shown host.old) script.new (H.shown host.new) script.new.line result }
    ensures again { script.old.ended ≡ true → (script.new.ended ≡ true) × (host.new ≡ host.old) }
{
    script.begin();
    loop {
        match script.read_on(host)? {
            Next::Part => {}
            Next::Line => return Ok(Found::Line),
            Next::End => return Ok(last(script.line())),
            Next::PastLimit => return Ok(Found::PastLimit),
        }
    }
}

/// What the bytes before the end of the script are: a line, or nothing.
fn last(line: &[u8]) -> Found
    ensures { result ≡ found_last line.now }
{
    if line.is_empty() {
        Found::End
    } else {
        Found::Line
    }
}
