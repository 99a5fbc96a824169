//! The other forms of one word.

ghost use Rattle.std.specs.Prelude.{◌≡◌};
ghost use Rattle.fv_model.specs.Words.{line_words};
ghost use Rattle.fv_model.specs.Grammar.{clean, cp, mirror, probe, work};
ghost use Rattle.fv_script.specs.Reading.{handed, outcome};

use crate::LineFault;
use crate::values::{index, size, steps};
use crate::words::{Words, end, form, kind, name, number};
use fv_model::Command;

/// `mirror V S W SIZE KIND`.
#[tactic(auto, unfolding(fv_model::specs::Grammar::mirror))]
pub fn mirror(words: &mut Words<'_>, into: &mut Command) -> Result<(), LineFault>
    ensures { handed result into.new ≡ outcome (mirror (line_words words.old.line.now)) }
{
    form!(words, into; source = name, snapshot = name, volume = name, digits = number, kind = kind; Command::Mirror { source, snapshot, volume, size: size(digits)?, kind })
}

/// `clean V`.
#[tactic(auto, unfolding(fv_model::specs::Grammar::clean))]
pub fn clean(words: &mut Words<'_>, into: &mut Command) -> Result<(), LineFault>
    ensures { handed result into.new ≡ outcome (clean (line_words words.old.line.now)) }
{
    form!(words, into; volume = name; Command::Clean { volume })
}

/// `probe V F I`.
#[tactic(auto, unfolding(fv_model::specs::Grammar::probe))]
pub fn probe(words: &mut Words<'_>, into: &mut Command) -> Result<(), LineFault>
    ensures { handed result into.new ≡ outcome (probe (line_words words.old.line.now)) }
{
    form!(words, into; volume = name, file = name, digits = number; Command::Probe { volume, file, index: index(digits)? })
}

/// `work N`.
#[tactic(auto, unfolding(fv_model::specs::Grammar::work))]
pub fn work(words: &mut Words<'_>, into: &mut Command) -> Result<(), LineFault>
    ensures { handed result into.new ≡ outcome (work (line_words words.old.line.now)) }
{
    form!(words, into; digits = number; Command::Work { steps: steps(digits)? })
}

/// `cp`.
#[tactic(auto, unfolding(fv_model::specs::Grammar::cp))]
pub fn cp(words: &mut Words<'_>, into: &mut Command) -> Result<(), LineFault>
    ensures { handed result into.new ≡ outcome (cp (line_words words.old.line.now)) }
{
    end(words)?;
    *into = Command::Cp;
    Ok(())
}
