//! Volumes: what each holds, and what it uses.
ghost use Rattle.std.specs.Prelude.{◌≡◌, ◌+◌, ◌*◌, ◌^◌, ◌<◌, ◌≤◌, IfOk, OnOk, map, option_map, None, true, false};
ghost use Rattle.std.specs.FinMap as fin;
ghost use Rattle.std.specs.FinSet as set;
ghost use Rattle.fv_model.specs.Numbers.{is_size, most_changes, greatest_span};
ghost use Rattle.fv_model.specs.Spelling.{name_cmp};
ghost use Rattle.fv_model.specs.Places.{id_cmp, ids_of};
ghost use Rattle.fv_model.specs.Space.{map_blocks, ids_in_any, ids_left_out, charge, span_of};
ghost use Rattle.fv_model.specs.Effects.{empty_volume, clone_of, mirror_of, being_split};
ghost use Rattle.fv_reference.specs.Maps.{map_of, set_of};
ghost use Rattle.fv_model.specs.Volumes as volumes;
ghost use Rattle.fv_reference.specs.Codes.{base_code, volume_code};

use crate::maps::{copy, get, insert, len, remove};
use crate::places::{Id, add_ids, take_ids};
use crate::sets::count;
use crate::tables::Table;
use fv_model::{Kind, Name};
use std::alloc::{AllocError, Global};
use std::collections::{BTreeMap, BTreeSet};
use std::marker::Model;

/// What a clone stands on: a snapshot of its parent with its table, and whether it is being split from it.
#[derive(Drop)]
pub struct Base {
    parent: Name,
    snapshot: Name,
    table: Table,
    splitting: bool,
}

impl Model for Base {
    ghost Value = { volumes.Base };

    ghost coded = { base_code };

    ghost view = { λ b. record { parent = b.parent; snapshot = b.snapshot; table = b.table; splitting = b.splitting } };
}

impl Clone for Base {
    ghost is_clone = { λ x y. y ≡ x };

    fn clone(&self) -> Result<Base, AllocError> {
        Ok(Base {
            parent: self.parent,
            snapshot: self.snapshot,
            table: self.table.clone()?,
            splitting: self.splitting,
        })
    }
}

impl Base {
    /// The parent's name.
    pub fn parent(&self) -> &Name
        ensures { result.now ≡ self.now.parent }
    {
        &self.parent
    }

    /// The snapshot's name.
    pub fn snapshot(&self) -> &Name
        ensures { result.now ≡ self.now.snapshot }
    {
        &self.snapshot
    }

    /// The snapshot's table.
    pub fn table(&self) -> &Table
        ensures { result.now ≡ self.now.table }
    {
        &self.table
    }

    /// Whether the clone is being split.
    pub fn is_splitting(&self) -> bool
        ensures { result ≡ self.now.splitting }
    {
        self.splitting
    }
}

/// A volume.
#[derive(Drop)]
pub struct Volume {
    kind: Kind,
    size: u32,
    most: u64,
    span: u32,
    changes: u64,
    active: Table,
    snapshots: BTreeMap<Name, Table>,
    base: Option<Base>,
    known: bool,
}

impl Model for Volume {
    ghost Value = { volumes.Volume };

    ghost coded = { volume_code };

    ghost invariant = { λ v. v.span ≤ greatest_span };

    ghost view = { λ v. record { kind = v.kind; size = v.size; most = v.most; span = v.span; now = v.changes; active = v.active; snapshots = map_of name_cmp v.snapshots; base = v.base; known = v.known } };
}

impl Clone for Volume {
    ghost is_clone = { λ x y. y ≡ x };

    fn clone(&self) -> Result<Volume, AllocError> {
        Ok(Volume {
            kind: self.kind,
            size: self.size,
            most: self.most,
            span: self.span,
            changes: self.changes,
            active: self.active.clone()?,
            snapshots: copy(&self.snapshots)?,
            base: copy_base(&self.base)?,
            known: self.known,
        })
    }
}

fn copy_base(base: &Option<Base>) -> Result<Option<Base>, AllocError>
    ensures { IfOk result (λ b. b ≡ base.now) }
{
    match base {
        None => Ok(None),
        Some(base) => Ok(Some(base.clone()?)),
    }
}

impl Volume {
    /// An empty volume.
    pub fn empty(alloc: Global, size: u32, kind: Kind) -> Result<Volume, AllocError>
        requires { is_size size ≡ true }
        ensures { IfOk result (λ v. v ≡ empty_volume size kind) }
    {
        Ok(Volume {
            kind,
            size,
            most: 2 * u64::from(size),
            span: span_of(size, 0, 0) as u32,
            changes: 0,
            active: Table::new(alloc),
            snapshots: BTreeMap::new(alloc),
            base: None,
            known: true,
        })
    }

    /// A clone of the volume on the table of one of its snapshots.
    pub fn clone_on(
        &self,
        alloc: Global,
        parent: &Name,
        snapshot: &Name,
        table: &Table,
        size: u32,
        kind: Kind,
    ) -> Result<Volume, AllocError>
        requires { span_of size (set.len (ids_of table.now)) self.now.span ≤ greatest_span }
        ensures { IfOk result (λ v. v ≡ clone_of parent.now self.now snapshot.now table.now size kind) }
    {
        Ok(Volume {
            kind,
            size,
            most: 2 * u64::from(size),
            span: span_of(size, id_count(alloc, table)?, self.span) as u32,
            changes: self.changes,
            active: table.clone()?,
            snapshots: BTreeMap::new(alloc),
            base: Some(Base {
                parent: *parent,
                snapshot: *snapshot,
                table: table.clone()?,
                splitting: false,
            }),
            known: true,
        })
    }

    /// A mirror of the volume with the table of one of its snapshots.
    pub fn mirror_with(
        &self,
        alloc: Global,
        table: &Table,
        size: u32,
        kind: Kind,
    ) -> Result<Volume, AllocError>
        requires { span_of size 0 self.now.span ≤ greatest_span }
        ensures { IfOk result (λ v. v ≡ mirror_of self.now table.now size kind) }
    {
        Ok(Volume {
            kind,
            size,
            most: 2 * u64::from(size),
            span: span_of(size, 0, self.span) as u32,
            changes: self.changes,
            active: table.clone()?,
            snapshots: BTreeMap::new(alloc),
            base: None,
            known: false,
        })
    }

    /// The volume with another size.
    pub fn with_size(&self, size: u32) -> Result<Volume, AllocError>
        ensures { IfOk result (λ v. v ≡ record self.now { size = size }) }
    {
        let mut after = self.clone()?;
        after.size = size;
        Ok(after)
    }

    /// The volume with another kind.
    pub fn with_kind(&self, kind: Kind) -> Result<Volume, AllocError>
        ensures { IfOk result (λ v. v ≡ record self.now { kind = kind }) }
    {
        let mut after = self.clone()?;
        after.kind = kind;
        Ok(after)
    }

    /// The volume after a change made its active table.
    pub fn changed(&self, table: Table) -> Result<Volume, AllocError>
        requires { self.now.now < most_changes }
        ensures { IfOk result (λ v. v ≡ record self.now { now = self.now.now + 1; active = table }) }
    {
        Ok(Volume {
            kind: self.kind,
            size: self.size,
            most: self.most,
            span: self.span,
            changes: self.next_stamp(),
            active: table,
            snapshots: copy(&self.snapshots)?,
            base: copy_base(&self.base)?,
            known: self.known,
        })
    }

    /// The stamp of the next change.
    pub fn next_stamp(&self) -> u64
        requires { self.now.now < most_changes }
        ensures { result ≡ self.now.now + 1 }
    {
        self.changes + 1
    }

    /// The volume with its active table kept under a name.
    pub fn with_snapshot(&self, snapshot: &Name) -> Result<Volume, AllocError>
        ensures { IfOk result (λ v. v ≡ record self.now { snapshots = fin.insert self.now.snapshots snapshot.now self.now.active }) }
    {
        let mut after = self.clone()?;
        insert(&mut after.snapshots, *snapshot, self.active.clone()?)?;
        Ok(after)
    }

    /// The volume without a snapshot.
    pub fn without_snapshot(&self, snapshot: &Name) -> Result<Volume, AllocError>
        ensures { IfOk result (λ v. v ≡ record self.now { snapshots = fin.remove self.now.snapshots snapshot.now }) }
    {
        let mut after = self.clone()?;
        remove(&mut after.snapshots, snapshot);
        Ok(after)
    }

    /// The volume with a snapshot's table active.
    pub fn restored(&self, table: &Table) -> Result<Volume, AllocError>
        ensures { IfOk result (λ v. v ≡ record self.now { active = table.now }) }
    {
        let mut after = self.clone()?;
        after.active = table.clone()?;
        Ok(after)
    }

    /// The volume once its split has begun.
    pub fn split_started(&self) -> Result<Volume, AllocError>
        ensures { IfOk result (λ v. v ≡ record self.now { base = option_map being_split self.now.base; known = false }) }
    {
        let mut after = self.clone()?;
        after.base = splitting_base(&self.base)?;
        after.known = false;
        Ok(after)
    }

    /// The volume without a base.
    pub fn split_finished(&self) -> Result<Volume, AllocError>
        ensures { IfOk result (λ v. v ≡ record self.now { base = None }) }
    {
        let mut after = self.clone()?;
        after.base = None;
        Ok(after)
    }

    /// The volume once every place is known.
    pub fn cleaned(&self) -> Result<Volume, AllocError>
        ensures { IfOk result (λ v. v ≡ record self.now { known = true }) }
    {
        let mut after = self.clone()?;
        after.known = true;
        Ok(after)
    }

    /// The kind.
    pub fn kind(&self) -> Kind
        ensures { result ≡ self.now.kind }
    {
        self.kind
    }

    /// The size in blocks.
    pub fn size(&self) -> u32
        ensures { result ≡ self.now.size }
    {
        self.size
    }

    /// The greatest size that it can be given.
    pub fn most(&self) -> u64
        ensures { result ≡ self.now.most }
    {
        self.most
    }

    /// The span.
    pub fn span(&self) -> u32
        ensures is { result ≡ self.now.span }
        ensures few { result ≤ greatest_span }
    {
        self.span
    }

    /// How many changes there were.
    pub fn changes(&self) -> u64
        ensures { result ≡ self.now.now }
    {
        self.changes
    }

    /// Whether every place is known.
    pub fn is_known(&self) -> bool
        ensures { result ≡ self.now.known }
    {
        self.known
    }

    /// The active table.
    pub fn active(&self) -> &Table
        ensures { result.now ≡ self.now.active }
    {
        &self.active
    }

    /// The snapshots.
    pub fn snapshots(&self) -> &BTreeMap<Name, Table>
        ensures { map_of name_cmp result.now ≡ self.now.snapshots }
    {
        &self.snapshots
    }

    /// The table of a snapshot.
    pub fn snapshot(&self, snapshot: &Name) -> Option<&Table>
        ensures { option_map (λ t. t.now) result ≡ fin.get self.now.snapshots snapshot.now }
    {
        get(&self.snapshots, snapshot)
    }

    /// The base.
    pub fn base(&self) -> &Option<Base>
        ensures { result.now ≡ self.now.base }
    {
        &self.base
    }

    /// The ids that it is charged for, and a map for each snapshot.
    #[tactic(auto, unfolding(fv_model::specs::Space::charge))]
    pub fn charge(&self, alloc: Global) -> Result<u128, AllocError>
        ensures is { IfOk result (λ n. n ≡ charge self.now) }
        ensures few { IfOk result (λ n. n < 2 ^ 115) }
    {
        charged(alloc, &self.active, &self.snapshots, &self.base, self.span)
    }
}

fn charged(
    alloc: Global,
    active: &Table,
    snapshots: &BTreeMap<Name, Table>,
    base: &Option<Base>,
    span: u32,
) -> Result<u128, AllocError>
    ensures few { IfOk result (λ n. n < 2 ^ 115) }
    ensures is { IfOk result (λ n. n ≡ set.len (set.difference (set.union (ids_of active.now) (ids_in_any (fin.values (map_of name_cmp snapshots.now)))) (ids_left_out base.now)) + map_blocks span * fin.len (map_of name_cmp snapshots.now)) }
{
    let ids = charged_ids(alloc, active, snapshots, base)?;
    let maps = u128::from(span.div_ceil(32_768)) * len(snapshots) as u128;
    Ok(count(&ids) as u128 + maps)
}

fn charged_ids(
    alloc: Global,
    active: &Table,
    snapshots: &BTreeMap<Name, Table>,
    base: &Option<Base>,
) -> Result<BTreeSet<Id>, AllocError>
    ensures { IfOk result (λ s. set_of id_cmp s ≡ set.difference (set.union (ids_of active.now) (ids_in_any (fin.values (map_of name_cmp snapshots.now)))) (ids_left_out base.now)) }
{
    let mut ids = ids_alone(alloc, active)?;
    add_kept(alloc, &mut ids, snapshots)?;
    leave_out(alloc, &mut ids, base)?;
    Ok(ids)
}

fn ids_alone(alloc: Global, table: &Table) -> Result<BTreeSet<Id>, AllocError>
    ensures { IfOk result (λ s. set_of id_cmp s ≡ ids_of table.now) }
{
    let mut ids = BTreeSet::new(alloc);
    add_ids(alloc, &mut ids, table)?;
    Ok(ids)
}

/// How many ids a table has.
pub fn id_count(alloc: Global, table: &Table) -> Result<u64, AllocError>
    ensures { IfOk result (λ n. n ≡ set.len (ids_of table.now)) }
{
    Ok(count(&ids_alone(alloc, table)?) as u64)
}

/// The span of a new volume.
pub fn span_of(size: u32, base: u64, at_least: u32) -> u128
    ensures { result ≡ span_of size base at_least }
{
    let room = 2 * u128::from(size) + u128::from(base) + 256;
    4096 * room.max(u128::from(at_least)).div_ceil(4096)
}

fn splitting_base(base: &Option<Base>) -> Result<Option<Base>, AllocError>
    ensures { IfOk result (λ b. b ≡ option_map being_split base.now) }
{
    match base {
        None => Ok(None),
        Some(base) => {
            let mut splitting = base.clone()?;
            splitting.splitting = true;
            Ok(Some(splitting))
        }
    }
}

/// Adds the ids of all snapshots.
pub fn add_kept(
    alloc: Global,
    ids: &mut BTreeSet<Id>,
    snapshots: &BTreeMap<Name, Table>,
) -> Result<(), AllocError>
    ensures { OnOk result (set_of id_cmp ids.new ≡ set.union (set_of id_cmp ids.old) (ids_in_any (fin.values (map_of name_cmp snapshots.now)))) }
{
    let _count = snapshots.len();
    add_all(alloc, ids, snapshots)
}

fn add_all(
    alloc: Global,
    ids: &mut BTreeSet<Id>,
    snapshots: &BTreeMap<Name, Table>,
) -> Result<(), AllocError>
    ensures { OnOk result (set_of id_cmp ids.new ≡ set.union (set_of id_cmp ids.old) (ids_in_any (map (λ e. e.1) snapshots.now.entries))) }
{
    for (_, table) in snapshots {
        add_ids(alloc, ids, table)?;
    }
    Ok(())
}

/// Takes the base's ids out, unless it is being split off.
fn leave_out(alloc: Global, ids: &mut BTreeSet<Id>, base: &Option<Base>) -> Result<(), AllocError>
    ensures { OnOk result (set_of id_cmp ids.new ≡ set.difference (set_of id_cmp ids.old) (ids_left_out base.now)) }
{
    match base {
        None => Ok(()),
        Some(base) => {
            if base.is_splitting() {
                return Ok(());
            }
            take_ids(alloc, ids, base.table())
        }
    }
}
