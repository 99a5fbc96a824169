//! Where a byte stands first.

ghost use Rattle.std.specs.Prelude.{◌≡◌, ◌≤◌, ◌&&◌, length, not, nat_eq, take, true};
ghost use Rattle.std.specs.List.{list_all};
ghost use Rattle.fv_script.specs.Parts.{before, is_other};

/// How many bytes are looked at in one piece. A compiler looks at a piece of 32 in a few steps.
const PIECE: usize = 32;

/// How many bytes stand before the first one of this value; all of them where none has it. It takes no memory, and looks at each byte before
/// that one at most twice: at pieces of 32 bytes as long as they lack it, and then at single bytes.
pub fn before(bytes: &[u8], wanted: u8) -> usize
    ensures { result ≡ before wanted bytes.now }
{
    let whole = pieces_without(bytes, wanted);
    whole + count_before(&bytes[whole..], wanted)
}

/// The same, byte by byte.
#[tactic(auto, using(crate::proofs::Befores::before_within))]
fn count_before(bytes: &[u8], wanted: u8) -> usize
    ensures value { result ≡ before wanted bytes.now }
    ensures within { result ≤ length bytes.now }
{
    bytes.iter().take_while(|b| **b != wanted).count()
}

/// How long the whole pieces are that stand before the first piece with such a byte.
#[tactic(auto, using(crate::proofs::Befores::one_piece_more))]
fn pieces_without(bytes: &[u8], wanted: u8) -> usize
    ensures within { result ≤ length bytes.now }
    ensures lacks { list_all (is_other wanted) (take result bytes.now) ≡ true }
{
    for piece in 0..bytes.len() / PIECE {
        let at = PIECE * piece;
        if !lacks(&bytes[at..at + PIECE], wanted) {
            return at;
        }
    }
    PIECE * (bytes.len() / PIECE)
}

/// Whether no byte has this value. It looks at each, so that a compiler can look at many in one step.
#[tactic(auto, using(crate::proofs::Befores::tests_begin, crate::proofs::Befores::tests_more, crate::proofs::Befores::tests_end))]
fn lacks(bytes: &[u8], wanted: u8) -> bool
    ensures { result ≡ list_all (is_other wanted) bytes.now }
{
    let mut lacks = true;
    for byte in bytes {
        lacks &= is_other(*byte, wanted);
    }
    lacks
}

fn is_other(byte: u8, wanted: u8) -> bool
    ensures { result ≡ is_other wanted byte }
{
    byte != wanted
}
