//! The last line of a run of a generated script.

ghost use Rattle.std.specs.Prelude.{◌≡◌};
ghost use Rattle.fv_script.specs.Summary.{summary};
ghost use Rattle.fv_script.specs.Telling.{Tells};

use arrayvec::ArrayString;
use fv_disk::{Failed, Host, give_all};
use itoa::Buffer;

/// Gives out the last line of a run of a generated script, in one piece: how many lines there were, how many of
/// them were accepted and how many refused, and the sum of all charges in blocks. At `Err` the sink's count of faults
/// rose, and a prefix of the line was given, never the whole. It takes no memory, and costs at most 113 bytes.
pub fn write_summary<H: Host>(
    lines: u64,
    accepted: u64,
    refused: u64,
    charged: u64,
    host: &mut H,
) -> Result<(), Failed>
    ensures { Tells (H.shown host.old) (summary lines accepted refused charged) (H.shown host.new) result }
{
    give_all(
        host,
        summary_line(lines, accepted, refused, charged)
            .as_str()
            .as_bytes(),
    )
}

/// The line: four numbers of at most 20 digits among 33 other bytes.
fn summary_line(lines: u64, accepted: u64, refused: u64, charged: u64) -> ArrayString<128>
    ensures { result.bytes ≡ summary lines accepted refused charged }
{
    let mut line = ArrayString::new();
    line.push_str("generated ");
    line.push_str(Buffer::new().format(lines));
    line.push_str(" ok ");
    line.push_str(Buffer::new().format(accepted));
    line.push_str(" refused ");
    line.push_str(Buffer::new().format(refused));
    line.push_str(" charged ");
    line.push_str(Buffer::new().format(charged));
    line.push_str("\n");
    line
}
