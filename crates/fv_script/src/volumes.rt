//! The forms that begin with `vol`.

ghost use Rattle.std.specs.Prelude.{◌≡◌};
ghost use Rattle.fv_model.specs.Words.{line_words};
ghost use Rattle.fv_model.specs.Grammar.{vol, vol_create, vol_destroy, vol_guarantee, vol_list, vol_resize, vol_stat};
ghost use Rattle.fv_script.specs.Reading.{handed, outcome};

use crate::LineFault;
use crate::values::{is, size};
use crate::words::{Words, end, form, kind, name, number, word};
use fv_model::Command;

/// The forms that begin with `vol`: `vol create`, `vol destroy V`, `vol resize V SIZE`, `vol guarantee V KIND`, `vol list` and `vol stat V`.
#[tactic(auto, unfolding(fv_model::specs::Grammar::vol))]
pub fn vol(words: &mut Words<'_>, into: &mut Command) -> Result<(), LineFault>
    ensures { handed result into.new ≡ outcome (vol (line_words words.old.line.now)) }
{
    let verb = word(words)?;
    if is(verb, b"create") {
        return vol_create(words, into);
    }
    if is(verb, b"destroy") {
        return vol_destroy(words, into);
    }
    if is(verb, b"resize") {
        return vol_resize(words, into);
    }
    if is(verb, b"guarantee") {
        return vol_guarantee(words, into);
    }
    if is(verb, b"list") {
        return vol_list(words, into);
    }
    if is(verb, b"stat") {
        return vol_stat(words, into);
    }
    Err(LineFault::Syntax)
}

/// `vol create V SIZE KIND`.
#[tactic(auto, unfolding(fv_model::specs::Grammar::vol_create))]
fn vol_create(words: &mut Words<'_>, into: &mut Command) -> Result<(), LineFault>
    ensures { handed result into.new ≡ outcome (vol_create (line_words words.old.line.now)) }
{
    form!(words, into; volume = name, digits = number, kind = kind; Command::VolCreate { volume, size: size(digits)?, kind })
}

/// `vol destroy V`.
#[tactic(auto, unfolding(fv_model::specs::Grammar::vol_destroy))]
fn vol_destroy(words: &mut Words<'_>, into: &mut Command) -> Result<(), LineFault>
    ensures { handed result into.new ≡ outcome (vol_destroy (line_words words.old.line.now)) }
{
    form!(words, into; volume = name; Command::VolDestroy { volume })
}

/// `vol resize V SIZE`.
#[tactic(auto, unfolding(fv_model::specs::Grammar::vol_resize))]
fn vol_resize(words: &mut Words<'_>, into: &mut Command) -> Result<(), LineFault>
    ensures { handed result into.new ≡ outcome (vol_resize (line_words words.old.line.now)) }
{
    form!(words, into; volume = name, digits = number; Command::VolResize { volume, size: size(digits)? })
}

/// `vol guarantee V KIND`.
#[tactic(auto, unfolding(fv_model::specs::Grammar::vol_guarantee))]
fn vol_guarantee(words: &mut Words<'_>, into: &mut Command) -> Result<(), LineFault>
    ensures { handed result into.new ≡ outcome (vol_guarantee (line_words words.old.line.now)) }
{
    form!(words, into; volume = name, kind = kind; Command::VolGuarantee { volume, kind })
}

/// `vol list`.
#[tactic(auto, unfolding(fv_model::specs::Grammar::vol_list))]
fn vol_list(words: &mut Words<'_>, into: &mut Command) -> Result<(), LineFault>
    ensures { handed result into.new ≡ outcome (vol_list (line_words words.old.line.now)) }
{
    end(words)?;
    *into = Command::VolList;
    Ok(())
}

/// `vol stat V`.
#[tactic(auto, unfolding(fv_model::specs::Grammar::vol_stat))]
fn vol_stat(words: &mut Words<'_>, into: &mut Command) -> Result<(), LineFault>
    ensures { handed result into.new ≡ outcome (vol_stat (line_words words.old.line.now)) }
{
    form!(words, into; volume = name; Command::VolStat { volume })
}
