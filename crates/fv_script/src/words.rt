//! The words of a line, one after another, and what each says.

ghost use Rattle.std.specs.Prelude.{◌≡◌, drop, take, IfOk};
ghost use Rattle.fv_model.specs.Words.{block_of, bytes_of, count_of, kind_of, line_words, name_of, padded, table_of, text_of, value_of};
ghost use Rattle.fv_model.specs.Grammar.{first};
ghost use Rattle.fv_script.specs.Parts.{AreDigits, Ends, Gives, letters, spaces};

use crate::LineFault;
use crate::finding::before;
use crate::hex::digits_of;
use crate::values::{is_number, kind_of, table_of};
use fv_model::{Kind, Name};

/// The command of a form: what each of its words says, one after the other to the end of the line, and then the numbers in their ranges.
macro_rules! form {
    ($words:ident, $into:ident; $($said:pat = $read:ident),*; $command:expr) => {{
        $(let $said = $read($words)?;)*
        end($words)?;
        *$into = $command;
        Ok(())
    }};
}

pub(crate) use form;

/// The words of a line that are still to be read.
#[derive(Drop)]
pub struct Words<'a> {
    pub line: &'a [u8],
}

/// The next word.
#[tactic(auto, using(crate::proofs::Spaces::next_word, crate::proofs::Spaces::no_word), unfolding(fv_model::specs::Grammar::first, fv_model::specs::Words::text_of))]
pub fn word<'a>(words: &mut Words<'a>) -> Result<&'a [u8], LineFault>
    ensures { Gives (λ word. word.now) result (line_words words.new.line.now) (first text_of (line_words words.old.line.now)) }
{
    let (word, rest) = first_word(after_spaces(words.line));
    words.line = rest;
    if word.is_empty() {
        return Err(LineFault::Syntax);
    }
    Ok(word)
}

/// The bytes before the first space, and those from it on.
#[tactic(auto, using(crate::proofs::Spaces::letters_within))]
fn first_word(line: &[u8]) -> (&[u8], &[u8])
    ensures front { result.0.now ≡ take (letters line.now) line.now }
    ensures back { result.1.now ≡ drop (letters line.now) line.now }
{
    line.split_at(letters(line))
}

#[tactic(auto, using(crate::proofs::Spaces::spaces_within))]
fn after_spaces(line: &[u8]) -> &[u8]
    ensures { result.now ≡ drop (spaces line.now) line.now }
{
    &line[spaces(line)..]
}

fn spaces(line: &[u8]) -> usize
    ensures { result ≡ spaces line.now }
{
    line.iter().take_while(|b| **b == b' ').count()
}

fn letters(line: &[u8]) -> usize
    ensures { result ≡ letters line.now }
{
    before(line, b' ')
}

/// The name that the next word is.
#[tactic(auto, using(crate::proofs::Said::said), unfolding(fv_model::specs::Words::name_of))]
pub fn name(words: &mut Words<'_>) -> Result<Name, LineFault>
    ensures { Gives (λ name. name) result (line_words words.new.line.now) (first name_of (line_words words.old.line.now)) }
{
    let word = word(words)?;
    Name::read(word).ok_or(LineFault::Syntax)
}

/// The digits of the number that the next word is.
#[tactic(auto, using(crate::proofs::Said::said), unfolding(fv_model::specs::Words::count_of))]
pub fn number<'a>(words: &mut Words<'a>) -> Result<&'a [u8], LineFault>
    ensures { Gives (λ digits. value_of digits.now) result (line_words words.new.line.now) (first count_of (line_words words.old.line.now)) }
{
    let word = word(words)?;
    if is_number(word) {
        Ok(word)
    } else {
        Err(LineFault::Syntax)
    }
}

/// The kind that the next word names.
#[tactic(auto, using(crate::proofs::Said::said))]
pub fn kind(words: &mut Words<'_>) -> Result<Kind, LineFault>
    ensures { Gives (λ kind. kind) result (line_words words.new.line.now) (first kind_of (line_words words.old.line.now)) }
{
    kind_of(word(words)?).ok_or(LineFault::Syntax)
}

/// The volume, or the volume and its snapshot, that the next word names.
#[tactic(auto, using(crate::proofs::Said::said))]
pub fn table(words: &mut Words<'_>) -> Result<(Name, Option<Name>), LineFault>
    ensures { Gives (λ table. table) result (line_words words.new.line.now) (first table_of (line_words words.old.line.now)) }
{
    table_of(word(words)?).ok_or(LineFault::Syntax)
}

/// The digits of the block that the next word spells.
#[tactic(auto, using(crate::proofs::Said::said))]
pub fn block_digits<'a>(words: &mut Words<'a>) -> Result<&'a [u8], LineFault>
    ensures spelled { Gives (λ digits. padded (bytes_of digits.now)) result (line_words words.new.line.now) (first block_of (line_words words.old.line.now)) }
    ensures digits { IfOk result (λ digits. AreDigits digits.now) }
{
    digits_of(word(words)?).ok_or(LineFault::Syntax)
}

/// No word is left.
#[tactic(auto, using(crate::proofs::Spaces::ends))]
pub fn end(words: &Words<'_>) -> Result<(), LineFault>
    ensures { Ends result (line_words words.now.line.now) }
{
    if after_spaces(words.line).is_empty() {
        Ok(())
    } else {
        Err(LineFault::Syntax)
    }
}
