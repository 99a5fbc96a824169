//! What volumes need beside their data, and what they commit, by their labels.

ghost use Rattle.std.specs.Prelude.{◌≡◌, ◌≤◌, ◌+◌, ◌*◌, ◌^◌, ℕ, None, get_or, ◌==◌, if◌then◌else◌};
ghost use Rattle.fv_model.specs.Numbers.{most_overhead};
ghost use Rattle.fv_first_pass.specs.Heads.{IsReadLabel};
ghost use Rattle.fv_fourth_pass.specs.Spaced.{commit_in, commits_to, overhead_in, overheads_to};

use fv_charge::overhead;
use fv_codec::{Label, Shape};

/// The overhead of a slot's volume, 0 where no label was read.
fn overhead_in(label: &Option<Result<Label, Shape>>) -> u64
    requires { IsReadLabel label.now }
    ensures exact { result ≡ overhead_in label.now }
    ensures most { result ≤ most_overhead }
{
    match label {
        Some(Ok(label)) => u64::from(overhead(label.span)),
        Some(Err(_)) => 0,
        None => 0,
    }
}

/// What a volume of this kind promises: its whole size where the kind is 0, else what it uses.
fn promised(kind: u8, size: u32, used: u64) -> u64
    ensures { result ≡ (if kind == 0 then size else used) }
{
    if kind == 0 { u64::from(size) } else { used }
}

/// What a slot's volume commits where it uses so many blocks, 0 where no label was read.
fn commit_in(label: &Option<Result<Label, Shape>>, used: u64) -> u64
    requires label { IsReadLabel label.now }
    requires used { used ≤ 2 ^ 56 }
    ensures exact { result ≡ commit_in label.now used }
    ensures most { result ≤ 2 ^ 57 }
{
    match label {
        Some(Ok(label)) => {
            2 * u64::from(overhead(label.span)) + promised(label.kind, label.size, used)
        }
        Some(Err(_)) => 0,
        None => 0,
    }
}

/// The overhead of the volume of a slot.
fn overhead_at(labels: &[Option<Result<Label, Shape>>], slot: usize) -> u64
    requires { (s : ℕ) → IsReadLabel (get_or labels.now s None) }
    ensures exact { result ≡ overhead_in (get_or labels.now slot None) }
    ensures most { result ≤ most_overhead }
{
    if slot >= labels.len() {
        return 0;
    }
    overhead_in(&labels[slot])
}

/// What the volume of a slot commits where so many blocks are used by slot.
fn commit_at(labels: &[Option<Result<Label, Shape>>], uses: &[u64], slot: usize) -> u64
    requires labels { (s : ℕ) → IsReadLabel (get_or labels.now s None) }
    requires uses { (s : ℕ) → get_or uses.now s 0 ≤ 2 ^ 56 }
    ensures exact { result ≡ commit_in (get_or labels.now slot None) (get_or uses.now slot 0) }
    ensures most { result ≤ 2 ^ 57 }
{
    if slot >= labels.len() {
        return 0;
    }
    commit_in(&labels[slot], used_at(uses, slot))
}

/// How many blocks the volume of a slot uses; past the last slot that is told of, none.
fn used_at(uses: &[u64], slot: usize) -> u64
    ensures { result ≡ get_or uses.now slot 0 }
{
    if slot >= uses.len() {
        return 0;
    }
    uses[slot]
}

/// The overheads of the volumes of all slots.
pub(crate) fn overheads(labels: &[Option<Result<Label, Shape>>]) -> u64
    requires { (s : ℕ) → IsReadLabel (get_or labels.now s None) }
    ensures exact { result ≡ overheads_to labels.now 64 }
    ensures most { result ≤ 64 * most_overhead }
{
    let mut sum = 0;
    for slot in 0..64 {
        sum += overhead_at(labels, slot);
    }
    sum
}

/// What the volumes of all slots commit where so many blocks are used by slot.
pub(crate) fn commits(labels: &[Option<Result<Label, Shape>>], uses: &[u64]) -> u64
    requires labels { (s : ℕ) → IsReadLabel (get_or labels.now s None) }
    requires uses { (s : ℕ) → get_or uses.now s 0 ≤ 2 ^ 56 }
    ensures { result ≡ commits_to labels.now uses.now 64 }
{
    let mut sum = 0;
    for slot in 0..64 {
        sum += commit_at(labels, uses, slot);
    }
    sum
}
