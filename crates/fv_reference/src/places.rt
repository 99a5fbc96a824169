//! The places of a table, their stamps and their ids.
ghost use Rattle.std.specs.Prelude.{◌≡◌, ◌++◌, OnOk, IfOk, map, flat_map};
ghost use Rattle.std.proofs.Common.{rules};
ghost use Rattle.std.specs.Cmp.Rules.{comparing};
ghost use Rattle.std.specs.Ordering.{nat_cmp, as_partial_cmp, eq_by_cmp};
ghost use Rattle.std.specs.FinMap as fin;
ghost use Rattle.std.specs.FinSet as set;
ghost use Rattle.fv_model.specs.Places.{InodeFile, OfFile, placed, place_cmp, id_cmp, tree_entries, stamps_of, ids, ids_of};
ghost use Rattle.fv_reference.specs.Maps.{map_of, set_of};
ghost use Rattle.fv_reference.specs.Owners.{owner_of};

use crate::maps::from_entries;
use crate::sets::{add, take};
use crate::tables::{File, Table};
use crate::trees::{Spot, Tree};
use std::alloc::{AllocError, Global};
use std::cmp::Ordering;
use std::collections::{BTreeMap, BTreeSet};
use std::marker::Model;

/// The place of a cell or mark: the number of its file, or none for the inode file; its level and its index.
#[derive(Drop)]
pub struct Place {
    owner: Option<u32>,
    level: u32,
    index: u32,
}

/// A place with the stamp that stands there.
pub type Id = (Place, u64);

impl Model for Place {
    ghost use Rattle.fv_model.specs.Places as places;
    ghost use Rattle.fv_reference.specs.Owners.{owner_of};

    ghost Value = { places.Place };

    ghost view = { λ p. record { owner = owner_of p.owner; level = p.level; index = p.index } };
}

impl Place {
    /// A place.
    pub fn new(owner: Option<u32>, level: u32, index: u32) -> Place
        ensures { result ≡ record { owner = owner_of owner; level = level; index = index } }
    {
        Place {
            owner,
            level,
            index,
        }
    }

    /// The same place.
    pub fn copy(&self) -> Place
        ensures { result ≡ self.now }
    {
        Place {
            owner: self.owner,
            level: self.level,
            index: self.index,
        }
    }
}

impl Ord for Place {
    ghost cmp = { place_cmp };

    ghost total = { Prim.search (comparing, rules) };

    ghost matches_partial_cmp = { Prim.search (comparing, rules) };

    ghost matches_eq = { Prim.search (comparing, rules) };

    fn cmp(&self, other: &Place) -> Ordering {
        let own = (self.owner, self.level, self.index);
        own.cmp(&(other.owner, other.level, other.index))
    }
}

impl PartialOrd for Place {
    ghost partial_cmp = { as_partial_cmp place_cmp };

    ghost laws = { Prim.search (comparing, rules) };

    fn partial_cmp(&self, other: &Place) -> Option<Ordering> {
        Some(self.cmp(other))
    }
}

impl PartialEq for Place {
    ghost eq = { eq_by_cmp place_cmp };

    ghost laws = { Prim.search (comparing, rules) };

    fn eq(&self, other: &Place) -> bool {
        self.cmp(other) == Ordering::Equal
    }
}

impl Eq for Place {
    ghost use Rattle.std.proofs.Common.{rules};
    ghost use Rattle.std.specs.Cmp.Rules.{comparing};

    ghost laws = { Prim.search (comparing, rules) };
}

/// The stamps of all files of a table and of its inode file.
#[tactic(auto, unfolding(fv_model::specs::Places::stamps_of))]
pub fn stamps_of(alloc: Global, table: &Table) -> Result<BTreeMap<Place, u64>, AllocError>
    ensures { IfOk result (λ m. map_of place_cmp m ≡ stamps_of table.now) }
{
    let mut entries = Vec::new(alloc);
    list_tree(&mut entries, None, table.inode())?;
    list_files(&mut entries, table.files())?;
    from_entries(alloc, entries)
}

/// Lists the stamps of all files.
fn list_files(entries: &mut Vec<Id>, files: &BTreeMap<u32, File>) -> Result<(), AllocError>
    ensures { OnOk result (entries.new.items ≡ entries.old.items ++ flat_map (λ e. tree_entries (OfFile e.0) e.1.tree) (fin.entries (map_of nat_cmp files.now))) }
{
    let _count = files.len();
    list_all(entries, files)
}

fn list_all(entries: &mut Vec<Id>, files: &BTreeMap<u32, File>) -> Result<(), AllocError>
    ensures { OnOk result (entries.new.items ≡ entries.old.items ++ flat_map (λ e. tree_entries (OfFile e.0) e.1.tree) files.now.entries) }
{
    for (number, file) in files {
        list_tree(entries, Some(*number), file.tree())?;
    }
    Ok(())
}

/// Lists the stamps of a tree.
fn list_tree(entries: &mut Vec<Id>, owner: Option<u32>, tree: &Tree) -> Result<(), AllocError>
    ensures { OnOk result (entries.new.items ≡ entries.old.items ++ tree_entries (owner_of owner) tree.now) }
{
    let stamps = tree.stamps();
    let _count = stamps.len();
    list_stamps(entries, owner, stamps)
}

fn list_stamps(
    entries: &mut Vec<Id>,
    owner: Option<u32>,
    stamps: &BTreeMap<Spot, u64>,
) -> Result<(), AllocError>
    ensures { OnOk result (entries.new.items ≡ entries.old.items ++ map (λ e. (placed (owner_of owner) e.0, e.1)) stamps.now.entries) }
{
    for (spot, stamp) in stamps {
        entries.push((Place::new(owner, spot.0, spot.1), *stamp))?;
    }
    Ok(())
}

/// Adds the ids of a table.
pub fn add_ids(alloc: Global, found: &mut BTreeSet<Id>, table: &Table) -> Result<(), AllocError>
    ensures { OnOk result (set_of id_cmp found.new ≡ set.union (set_of id_cmp found.old) (ids_of table.now)) }
{
    let stamps = stamps_of(alloc, table)?;
    let _count = stamps.len();
    add_listed(found, &stamps)
}

fn add_listed(found: &mut BTreeSet<Id>, stamps: &BTreeMap<Place, u64>) -> Result<(), AllocError>
    ensures { OnOk result (set_of id_cmp found.new ≡ set.union (set_of id_cmp found.old) (set.from_list stamps.now.entries)) }
{
    for (place, stamp) in stamps {
        add(found, (place.copy(), *stamp))?;
    }
    Ok(())
}

/// Takes the ids of a table out.
pub fn take_ids(alloc: Global, found: &mut BTreeSet<Id>, table: &Table) -> Result<(), AllocError>
    ensures { OnOk result (set_of id_cmp found.new ≡ set.difference (set_of id_cmp found.old) (ids_of table.now)) }
{
    let stamps = stamps_of(alloc, table)?;
    let _count = stamps.len();
    take_listed(found, &stamps);
    Ok(())
}

fn take_listed(found: &mut BTreeSet<Id>, stamps: &BTreeMap<Place, u64>)
    ensures { set_of id_cmp found.new ≡ set.difference (set_of id_cmp found.old) (set.from_list stamps.now.entries) }
{
    for (place, stamp) in stamps {
        take(found, &(place.copy(), *stamp));
    }
}
