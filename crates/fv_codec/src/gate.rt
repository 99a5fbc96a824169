//! Gates: the block that says whether its root counts.

ghost use Rattle.std.specs.Prelude.{◌≡◌};
ghost use Rattle.fv_codec.specs.Blocks.{gate_open, open_gate};

use crate::page::Page;
use crate::reading::word_at;

/// `GATEOPEN` as a word.
const OPEN: u64 = 0x4741_5445_4f50_454e;

/// Whether a gate is open: whether it begins with `GATEOPEN`. Its other bytes don't matter. Reads one word.
#[tactic(auto, unfolding(crate::specs::Blocks::gate_open))]
pub fn gate_open(block: &[u8; 4096]) -> bool
    ensures { result ≡ gate_open block.now }
{
    word_at(block, 0) == OPEN
}

/// Writes an open gate: `GATEOPEN`, and zeros behind it. Writes the whole block.
#[tactic(auto, unfolding(crate::specs::Blocks::open_gate))]
pub fn open_gate(into: &mut [u8; 4096])
    ensures { into.new ≡ open_gate }
{
    let mut page = Page::new();
    page.word(OPEN);
    page.skip(4088);
    page.finish(into);
}
