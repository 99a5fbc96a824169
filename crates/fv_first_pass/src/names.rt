//! Lines of the names of a label's snapshots.

ghost use Rattle.std.specs.Prelude.{◌≡◌, ◌≤◌, ◌<◌, ◌+◌, ◌++◌, find, take, get_or, [], OnOk};
ghost use Rattle.std.specs.Option.{option_map};
ghost use Rattle.fv_model.specs.Spelling.{is_same_name};
ghost use Rattle.fv_image.specs.Views.{Snap, head_of, snaps_from};
ghost use Rattle.fv_faults.specs.FirstPass.{snap_names};
ghost use Rattle.fv_first_pass.specs.Records.{free, is_named, snap_if};
ghost use Rattle.fv_first_pass.specs.Sites.{IsSite};

use crate::said::say;
use crate::site::Site;
use fv_codec::SnapRecord;
use fv_faults::Fault;
use std::alloc::AllocError;
use std::cmp::Ordering;

/// Whether two records have one name.
fn same_record(one: &SnapRecord, other: &SnapRecord) -> bool
    requires one { one.now.name_length ≤ 64 }
    requires other { other.now.name_length ≤ 64 }
    ensures { result ≡ is_same_name (take one.now.name_length one.now.name) (take other.now.name_length other.now.name) }
{
    let other = &other.name[..usize::from(other.name_length)];
    one.name[..usize::from(one.name_length)].cmp(other) == Ordering::Equal
}

/// The map slot of record `k`, if a snapshot has it that has the name of record `j`.
fn named_by(site: &Site, j: usize, k: usize) -> Option<u8>
    requires site { IsSite site.now }
    requires one { j < 24 }
    requires other { k < 24 }
    ensures { result ≡ option_map (λ (q : Snap). q.slot)
        (find (is_named (get_or site.now.label.snapshots j free)) (snap_if (1 + k) (get_or site.now.label.snapshots k free))) }
{
    if site.label.snapshots[k].name_length == 0 {
        return None;
    }
    if same_record(&site.label.snapshots[k], &site.label.snapshots[j]) {
        return Some(1 + k as u8);
    }
    None
}

/// The map slot of the first snapshot before record `j` that has its name.
fn first_named(site: &Site, j: usize) -> Option<u8>
    requires site { IsSite site.now }
    requires record { j < 24 }
    ensures { result ≡ option_map (λ (q : Snap). q.slot)
        (find (is_named (get_or site.now.label.snapshots j free)) (snaps_from 1 (take j site.now.label.snapshots))) }
{
    let mut first = None;
    for k in 0..j {
        first = first.or(named_by(site, j, k));
    }
    first
}

/// A line of record `j`, where a snapshot before it has its name.
#[tactic(auto, unfolding(fv_faults::specs::FirstPass::snap_names))]
fn record_names(found: &mut Vec<Fault>, site: &Site, at: u64, j: usize) -> Result<(), AllocError>
    requires site { IsSite site.now }
    requires record { j < 24 }
    ensures { OnOk result (found.new.items ≡ found.old.items
        ++ snap_names at (snaps_from 1 (take j site.now.label.snapshots)) (snap_if (1 + j) (get_or site.now.label.snapshots j free))) }
{
    if site.label.snapshots[j].name_length == 0 {
        return Ok(());
    }
    if let Some(first) = first_named(site, j) {
        say(found, 4, at, u64::from(first), 1 + j as u64)?;
    }
    Ok(())
}

/// Lines of the names of a label's snapshots, rule 4: none has that of one before it.
#[tactic(auto, unfolding(fv_image::specs::Views::head_of))]
pub(crate) fn name_lines(found: &mut Vec<Fault>, site: &Site, at: u64) -> Result<(), AllocError>
    requires site { IsSite site.now }
    ensures { OnOk result (found.new.items ≡ found.old.items ++ snap_names at [] (head_of site.now.label).snapshots) }
{
    for j in 0..24 {
        record_names(found, site, at, j)?;
    }
    Ok(())
}
