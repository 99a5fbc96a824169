//! The forms that begin with `snap`, `clone` and `split`.

ghost use Rattle.std.specs.Prelude.{◌≡◌};
ghost use Rattle.fv_model.specs.Words.{line_words};
ghost use Rattle.fv_model.specs.Grammar.{clone, clone_create, snap, snap_create, snap_delete, snap_list, snap_restore, split, split_finish, split_start};
ghost use Rattle.fv_script.specs.Reading.{handed, outcome};

use crate::LineFault;
use crate::values::{is, size};
use crate::words::{Words, end, form, kind, name, number, word};
use fv_model::Command;

/// The forms that begin with `snap`: `snap create V S`, `snap delete V S`, `snap restore V S` and `snap list V`.
#[tactic(auto, unfolding(fv_model::specs::Grammar::snap))]
pub fn snap(words: &mut Words<'_>, into: &mut Command) -> Result<(), LineFault>
    ensures { handed result into.new ≡ outcome (snap (line_words words.old.line.now)) }
{
    let verb = word(words)?;
    if is(verb, b"create") {
        return snap_create(words, into);
    }
    if is(verb, b"delete") {
        return snap_delete(words, into);
    }
    if is(verb, b"restore") {
        return snap_restore(words, into);
    }
    if is(verb, b"list") {
        return snap_list(words, into);
    }
    Err(LineFault::Syntax)
}

/// `snap create V S`.
#[tactic(auto, unfolding(fv_model::specs::Grammar::snap_create))]
fn snap_create(words: &mut Words<'_>, into: &mut Command) -> Result<(), LineFault>
    ensures { handed result into.new ≡ outcome (snap_create (line_words words.old.line.now)) }
{
    form!(words, into; volume = name, snapshot = name; Command::SnapCreate { volume, snapshot })
}

/// `snap delete V S`.
#[tactic(auto, unfolding(fv_model::specs::Grammar::snap_delete))]
fn snap_delete(words: &mut Words<'_>, into: &mut Command) -> Result<(), LineFault>
    ensures { handed result into.new ≡ outcome (snap_delete (line_words words.old.line.now)) }
{
    form!(words, into; volume = name, snapshot = name; Command::SnapDelete { volume, snapshot })
}

/// `snap restore V S`.
#[tactic(auto, unfolding(fv_model::specs::Grammar::snap_restore))]
fn snap_restore(words: &mut Words<'_>, into: &mut Command) -> Result<(), LineFault>
    ensures { handed result into.new ≡ outcome (snap_restore (line_words words.old.line.now)) }
{
    form!(words, into; volume = name, snapshot = name; Command::SnapRestore { volume, snapshot })
}

/// `snap list V`.
#[tactic(auto, unfolding(fv_model::specs::Grammar::snap_list))]
fn snap_list(words: &mut Words<'_>, into: &mut Command) -> Result<(), LineFault>
    ensures { handed result into.new ≡ outcome (snap_list (line_words words.old.line.now)) }
{
    form!(words, into; volume = name; Command::SnapList { volume })
}

/// The form that begins with `clone`: `clone create C V S SIZE KIND`.
#[tactic(auto, unfolding(fv_model::specs::Grammar::clone))]
pub fn clone(words: &mut Words<'_>, into: &mut Command) -> Result<(), LineFault>
    ensures { handed result into.new ≡ outcome (clone (line_words words.old.line.now)) }
{
    let verb = word(words)?;
    if is(verb, b"create") {
        return clone_create(words, into);
    }
    Err(LineFault::Syntax)
}

/// `clone create C V S SIZE KIND`.
#[tactic(auto, unfolding(fv_model::specs::Grammar::clone_create))]
fn clone_create(words: &mut Words<'_>, into: &mut Command) -> Result<(), LineFault>
    ensures { handed result into.new ≡ outcome (clone_create (line_words words.old.line.now)) }
{
    form!(words, into; clone = name, parent = name, snapshot = name, digits = number, kind = kind; Command::CloneCreate { clone, parent, snapshot, size: size(digits)?, kind })
}

/// The forms that begin with `split`: `split start C` and `split finish C`.
#[tactic(auto, unfolding(fv_model::specs::Grammar::split))]
pub fn split(words: &mut Words<'_>, into: &mut Command) -> Result<(), LineFault>
    ensures { handed result into.new ≡ outcome (split (line_words words.old.line.now)) }
{
    let verb = word(words)?;
    if is(verb, b"start") {
        return split_start(words, into);
    }
    if is(verb, b"finish") {
        return split_finish(words, into);
    }
    Err(LineFault::Syntax)
}

/// `split start C`.
#[tactic(auto, unfolding(fv_model::specs::Grammar::split_start))]
fn split_start(words: &mut Words<'_>, into: &mut Command) -> Result<(), LineFault>
    ensures { handed result into.new ≡ outcome (split_start (line_words words.old.line.now)) }
{
    form!(words, into; clone = name; Command::SplitStart { clone })
}

/// `split finish C`.
#[tactic(auto, unfolding(fv_model::specs::Grammar::split_finish))]
fn split_finish(words: &mut Words<'_>, into: &mut Command) -> Result<(), LineFault>
    ensures { handed result into.new ≡ outcome (split_finish (line_words words.old.line.now)) }
{
    form!(words, into; clone = name; Command::SplitFinish { clone })
}
