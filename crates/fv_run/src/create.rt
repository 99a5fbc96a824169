//! Making a new aggregate, and telling of it.

ghost use Rattle.std.specs.Prelude.{◌≡◌};
ghost use Rattle.fv_root.specs.Formatted.{IsSize};
ghost use Rattle.fv_run.specs.Creating.{created_text, Creates};

use crate::ending::Fault;
use arrayvec::ArrayString;
use fv_disk::{Host, give_all};
use fv_root::{capacity, format};
use itoa::Buffer;

/// Makes a new aggregate of `blocks` blocks, from 512 to 1,048,576, and then tells of it. It gives
/// nothing before the last barrier of the new aggregate.
pub(crate) fn create<H: Host>(host: &mut H, blocks: u32) -> Result<(), Fault>
    requires { IsSize blocks }
    ensures { Creates blocks (H.shown host.old) (H.shown host.new) result }
{
    let Ok(()) = format(host, blocks) else {
        return Err(Fault::Disk);
    };
    let Ok(()) = give_all(host, created_line(blocks).as_str().as_bytes()) else {
        return Err(Fault::Sink);
    };
    Ok(())
}

/// The line that tells of a new aggregate. It has at most 39 bytes.
fn created_line(blocks: u32) -> ArrayString<64>
    requires { IsSize blocks }
    ensures { result.bytes ≡ created_text blocks }
{
    let mut line = ArrayString::new();
    line.push_str("created ");
    line.push_str(Buffer::new().format(blocks));
    line.push_str(" capacity ");
    line.push_str(Buffer::new().format(capacity(blocks)));
    line.push_str("\n");
    line
}
