//! Writing a reply.

ghost use Rattle.std.specs.Prelude.{◌≡◌, ◌≤◌, ◌<◌, ◌+◌, ◌*◌, ◌++◌, ◌∷◌, [], flat_map, length};
ghost use Rattle.fv_model.specs.Texts.{done_text, hex, or_dash, text};
ghost use Rattle.fv_script.specs.Telling.{Tells};
ghost use Rattle.fv_script.specs.Spelled.{before_spaces};

use crate::content::{lay_line, trimmed};
use crate::lines::{done_line, number_line, ok_line, refusal_line, stat_line};
use arrayvec::ArrayVec;
use fv_disk::{Failed, Host, give_all};
use fv_model::{Block, Name, Reply};

/// How many names are given at once, at most.
const PIECE_NAMES: usize = 64;

/// Up to so many bytes of a block are spelled in a place of 128 bytes.
const SHORT: usize = 63;

/// Up to so many in one of 1,024.
const MIDDLE: usize = 511;

/// All that a block has.
const WHOLE: usize = 4096;

/// So many names, each of at most 64 bytes and with one byte behind it.
type Piece = ArrayVec<u8, 4160>;

/// Gives out the reply's line with its end. At `Err` the sink's count of faults rose, and a prefix of
/// the line was given, never the whole. It takes no memory, and costs by the line's bytes. The line is handed to the sink
/// in one piece, and a line of more than 64 names in a piece for each 64. A piece takes one call where the
/// sink takes all of it, and one of names costs a buffer of 4160 bytes beside them.
#[tactic(auto, using(crate::proofs::Told::told))]
pub fn write_reply<H: Host>(reply: &Reply, host: &mut H) -> Result<(), Failed>
    ensures { Tells (H.shown host.old) (text reply.now) (H.shown host.new) result }
{
    match reply {
        Reply::Done => give_line(ok_line().as_bytes(), host),
        Reply::Content(block) => give_content(block, host),
        Reply::Number(number) => give_line(number_line(*number).as_str().as_bytes(), host),
        Reply::Names(names) => write_names(names.as_slice(), host),
        Reply::Stat(stat) => give_line(stat_line(stat).as_str().as_bytes(), host),
        Reply::Refused(refusal) => give_line(refusal_line(refusal).as_str().as_bytes(), host),
    }
}

/// Gives out the last line of a run that answered so many lines, in one piece, as `write_reply` does.
pub fn write_done<H: Host>(count: u64, host: &mut H) -> Result<(), Failed>
    ensures { Tells (H.shown host.old) (done_text count) (H.shown host.new) result }
{
    give_line(done_line(count).as_str().as_bytes(), host)
}

fn give_line<H: Host>(line: &[u8], host: &mut H) -> Result<(), Failed>
    ensures { Tells (H.shown host.old) line.now (H.shown host.new) result }
{
    give_all(host, line)
}

/// Gives out the line of a block. It is spelled in a place that is filled with zeros first, so few bytes get a small one.
#[tactic(auto, using(crate::proofs::Told::told), unfolding(fv_model::specs::Texts::words))]
fn give_content<H: Host>(block: &Block, host: &mut H) -> Result<(), Failed>
    ensures { Tells (H.shown host.old) (text (Reply.Content block.now)) (H.shown host.new) result }
{
    let bytes = trimmed(block);
    if bytes.len() <= SHORT {
        return give_bytes(&mut [0; 2 * SHORT + 2], bytes, host);
    }
    if bytes.len() <= MIDDLE {
        return give_bytes(&mut [0; 2 * MIDDLE + 2], bytes, host);
    }
    give_bytes(&mut [0; 2 * WHOLE + 2], bytes, host)
}

/// Gives out the line of a block that ends with zeros behind these bytes. It is spelled in the place lent.
#[tactic(auto, using(crate::proofs::Told::told))]
fn give_bytes<H: Host>(line: &mut [u8], bytes: &[u8], host: &mut H) -> Result<(), Failed>
    requires { 2 * length bytes.now + 2 ≤ length line.old }
    ensures { Tells (H.shown host.old) (or_dash (flat_map hex bytes.now) ++ 10 ∷ []) (H.shown host.new) result }
{
    let end = lay_line(line, bytes);
    give_line(&line[..end], host)
}

/// Gives out names with a space between, or a dash, and the line's end.
#[tactic(auto, using(crate::proofs::NamesTold::begins), unfolding(fv_model::specs::Texts::words))]
fn write_names<H: Host>(names: &[Name], host: &mut H) -> Result<(), Failed>
    ensures { Tells (H.shown host.old) (text (Reply.Names names.now)) (H.shown host.new) result }
{
    let Some((last, others)) = names.split_last() else {
        return give_line(b"-\n", host);
    };
    let last = last.as_bytes();
    let mut rest = others;
    while rest.len() >= PIECE_NAMES {
        let (front, left) = rest.split_at(PIECE_NAMES);
        give_line(spaced(front).as_slice(), host)?;
        rest = left;
    }
    give_line(ended(rest, last).as_slice(), host)
}

/// The names, each with a space behind it, and the last one with the line's end.
fn ended(names: &[Name], last: &[u8]) -> Piece
    requires few { length names.now < 64 }
    requires short { length last.now ≤ 64 }
    ensures { result.items ≡ before_spaces names.now ++ (last.now ++ 10 ∷ []) }
{
    let mut piece = spaced(names);
    add(&mut piece, last, b'\n');
    piece
}

/// The names, each with a space behind it.
#[tactic(auto, using(crate::proofs::NamesTold::none_spaced, crate::proofs::NamesTold::one_more, crate::proofs::NamesTold::all_spaced))]
fn spaced(names: &[Name]) -> Piece
    requires { length names.now ≤ 64 }
    ensures spelled { result.items ≡ before_spaces names.now }
    ensures short { length result.items ≤ 65 * length names.now }
{
    let mut piece = Piece::new();
    for name in names {
        add(&mut piece, name.as_bytes(), b' ');
    }
    piece
}

/// Adds a name with a byte behind it.
fn add(piece: &mut Piece, name: &[u8], behind: u8)
    requires room { length piece.old.items ≤ 4095 }
    requires short { length name.now ≤ 64 }
    ensures spelled { piece.new.items ≡ piece.old.items ++ (name.now ++ behind ∷ []) }
    ensures short { length piece.new.items ≤ length piece.old.items + 65 }
{
    piece.try_extend_from_slice(name).unwrap();
    piece.push(behind);
}
