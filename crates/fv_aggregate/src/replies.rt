//! Leaving a reply in what a command was lent for it. A reply has the size of a block, and a new one is filled whole. So one of the same kind
//! is written in its place, and a new one is made by a call of its own: a call that doesn't come to it fills nothing.

ghost use Rattle.std.specs.Prelude.{◌≡◌};
ghost use Rattle.fv_model.specs.declared.answers.Reply.TheVariants.{Done, Names as Listed, Number, Refused, Stat as Numbers};
ghost use Rattle.fv_aggregate.specs.Answers.{IsContent};

use fv_model::{Names, Refusal, Reply, Stat};

/// Leaves `ok`.
pub(crate) fn done(into: &mut Reply)
    ensures { into.new ≡ Done }
{
    match into {
        Reply::Done => {}
        _ => new_done(into),
    }
}

/// Leaves a refusal, in the place of another one where there is one: then it writes the refusal alone, and else it fills the reply, 4 KB.
pub fn refuse(into: &mut Reply, refusal: Refusal)
    ensures { into.new ≡ Refused refusal }
{
    match into {
        Reply::Refused(held) => *held = refusal,
        _ => new_refusal(into, refusal),
    }
}

/// Leaves a number.
pub(crate) fn count(into: &mut Reply, number: u64)
    ensures { into.new ≡ Number number }
{
    match into {
        Reply::Number(held) => *held = number,
        _ => new_number(into, number),
    }
}

/// Leaves what a volume tells of itself.
pub(crate) fn stat(into: &mut Reply, numbers: Stat)
    ensures { into.new ≡ Numbers numbers }
{
    match into {
        Reply::Stat(held) => *held = numbers,
        _ => new_stat(into, numbers),
    }
}

/// Leaves names.
pub(crate) fn list(into: &mut Reply, names: Names)
    ensures { into.new ≡ Listed names }
{
    *into = Reply::Names(names);
}

/// Leaves a block, which is open, to be filled by the caller.
pub(crate) fn make_content(into: &mut Reply)
    ensures { IsContent into.new }
{
    match into {
        Reply::Content(_) => {}
        _ => new_content(into),
    }
}

fn new_done(into: &mut Reply)
    ensures { into.new ≡ Done }
{
    *into = Reply::Done;
}

fn new_refusal(into: &mut Reply, refusal: Refusal)
    ensures { into.new ≡ Refused refusal }
{
    *into = Reply::Refused(refusal);
}

fn new_number(into: &mut Reply, number: u64)
    ensures { into.new ≡ Number number }
{
    *into = Reply::Number(number);
}

fn new_stat(into: &mut Reply, numbers: Stat)
    ensures { into.new ≡ Numbers numbers }
{
    *into = Reply::Stat(numbers);
}

fn new_content(into: &mut Reply)
    ensures { IsContent into.new }
{
    *into = Reply::Content([0; 4096]);
}
