//! The forms on files.

ghost use Rattle.std.specs.Prelude.{◌≡◌};
ghost use Rattle.fv_model.specs.Words.{line_words};
ghost use Rattle.fv_model.specs.Grammar.{cut_form, get, len, ls, new_form, put_form, rm_form};
ghost use Rattle.fv_script.specs.Reading.{handed, outcome};

use crate::LineFault;
use crate::hex::fill;
use crate::values::{blocks, index};
use crate::words::{Words, block_digits, end, form, name, number, table};
use fv_model::Command;

/// `new V F` or `new V F RESERVE`.
#[tactic(auto, unfolding(fv_model::specs::Grammar::new_form))]
pub fn new(words: &mut Words<'_>, into: &mut Command) -> Result<(), LineFault>
    ensures { handed result into.new ≡ outcome (new_form (line_words words.old.line.now)) }
{
    let volume = name(words)?;
    let file = name(words)?;
    if end(words).is_ok() {
        *into = Command::New {
            volume,
            file,
            reserve: 0,
        };
        return Ok(());
    }
    form!(words, into; digits = number; Command::New { volume, file, reserve: blocks(digits)? })
}

/// `put V F I HEX`. The digits go straight into the block of the command.
#[tactic(auto, unfolding(fv_model::specs::Grammar::put_form))]
pub fn put(words: &mut Words<'_>, into: &mut Command) -> Result<(), LineFault>
    ensures { handed result into.new ≡ outcome (put_form (line_words words.old.line.now)) }
{
    let volume = name(words)?;
    let file = name(words)?;
    let number = number(words)?;
    let digits = block_digits(words)?;
    end(words)?;
    let index = index(number)?;
    *into = Command::Put {
        volume,
        file,
        index,
        block: [0; 4096],
    };
    if let Command::Put { block, .. } = into {
        fill(block, digits);
    }
    Ok(())
}

/// `get V F I`.
#[tactic(auto, unfolding(fv_model::specs::Grammar::get))]
pub fn get(words: &mut Words<'_>, into: &mut Command) -> Result<(), LineFault>
    ensures { handed result into.new ≡ outcome (get (line_words words.old.line.now)) }
{
    form!(words, into; (volume, snapshot) = table, file = name, digits = number; Command::Get { volume, snapshot, file, index: index(digits)? })
}

/// `len V F`.
#[tactic(auto, unfolding(fv_model::specs::Grammar::len))]
pub fn len(words: &mut Words<'_>, into: &mut Command) -> Result<(), LineFault>
    ensures { handed result into.new ≡ outcome (len (line_words words.old.line.now)) }
{
    form!(words, into; (volume, snapshot) = table, file = name; Command::Len { volume, snapshot, file })
}

/// `cut V F N`.
#[tactic(auto, unfolding(fv_model::specs::Grammar::cut_form))]
pub fn cut(words: &mut Words<'_>, into: &mut Command) -> Result<(), LineFault>
    ensures { handed result into.new ≡ outcome (cut_form (line_words words.old.line.now)) }
{
    form!(words, into; volume = name, file = name, digits = number; Command::Cut { volume, file, length: blocks(digits)? })
}

/// `rm V F`.
#[tactic(auto, unfolding(fv_model::specs::Grammar::rm_form))]
pub fn rm(words: &mut Words<'_>, into: &mut Command) -> Result<(), LineFault>
    ensures { handed result into.new ≡ outcome (rm_form (line_words words.old.line.now)) }
{
    form!(words, into; volume = name, file = name; Command::Remove { volume, file })
}

/// `ls V`.
#[tactic(auto, unfolding(fv_model::specs::Grammar::ls))]
pub fn ls(words: &mut Words<'_>, into: &mut Command) -> Result<(), LineFault>
    ensures { handed result into.new ≡ outcome (ls (line_words words.old.line.now)) }
{
    form!(words, into; (volume, snapshot) = table; Command::Ls { volume, snapshot })
}
