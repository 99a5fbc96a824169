//! The tables of volumes, as walks met them.

use crate::image::Image;
use crate::layout::Layout;
use crate::walk::{Ground, Rooted, Step, Walk, roots_of, walk_from};
use fv_codec::Label;
use std::alloc::{AllocError, Global};

/// A table of a volume.
#[derive(Drop)]
pub struct Table {
    pub root: Rooted,
    pub walk: Walk,
    /// The bits of its map.
    pub bits: Vec<bool>,
}

/// A volume with its tables: the active one, and those of snapshots by their map slots.
#[derive(Drop)]
pub struct Tables {
    pub slot: u64,
    /// Where its label lies.
    pub place: u64,
    pub label: Label,
    pub tables: Vec<Table>,
    /// The steps of its base table, through its parent.
    pub base: Vec<Step>,
}

/// The volumes of an aggregate with their tables.
pub fn tables_of(alloc: Global, image: &Image, layout: &Layout) -> Result<Vec<Tables>, AllocError> {
    let mut all = Vec::new(alloc);
    for volume in layout.volumes.iter() {
        if let Ok(label) = &volume.label {
            let ground = Ground {
                alloc,
                image,
                layout,
                slot: volume.slot,
                span: label.span,
            };
            all.push(Tables {
                slot: volume.slot,
                place: volume.place,
                label: *label,
                tables: tables_in(ground, volume.place, label)?,
                base: base_of(ground, label)?,
            })?;
        }
    }
    Ok(all)
}

/// The tables of a volume whose label lies at a place.
fn tables_in(ground: Ground<'_>, place: u64, label: &Label) -> Result<Vec<Table>, AllocError> {
    let mut tables = Vec::new(ground.alloc);
    let roots = roots_of(ground.alloc, label)?;
    for root in roots.iter() {
        let bits = ground
            .layout
            .map_bits(ground.alloc, ground.image, ground.slot, root.map)?;
        tables.push(Table {
            root: *root,
            walk: walk_from(ground, place, *root)?,
            bits,
        })?;
    }
    Ok(tables)
}

/// The steps of the table on which a volume stands; none without a base.
fn base_of(ground: Ground<'_>, label: &Label) -> Result<Vec<Step>, AllocError> {
    let none = Vec::new(ground.alloc);
    let Some(slot) = ground.layout.parent(ground.slot) else {
        return Ok(none);
    };
    let Some(volume) = ground.layout.volume(slot) else {
        return Ok(none);
    };
    let Ok(parent) = &volume.label else {
        return Ok(none);
    };
    let below = Ground {
        alloc: ground.alloc,
        image: ground.image,
        layout: ground.layout,
        slot,
        span: parent.span,
    };
    let roots = roots_of(ground.alloc, parent)?;
    for root in roots.iter() {
        if root.map != 0 && root.map == u64::from(label.base_slot) {
            let walk = walk_from(below, volume.place, *root)?;
            return Ok(walk.steps);
        }
    }
    Ok(none)
}

impl Tables {
    /// Whether the label names a base.
    pub fn has_base(&self) -> bool {
        self.label.parent != 0
    }

    /// Whether the volume is being split from its base.
    pub fn is_splitting(&self) -> bool {
        self.label.parent != 0 && self.label.splitting == 1
    }

    /// Whether one of its roots reaches a VVBN.
    pub fn reaches(&self, vvbn: u64) -> bool {
        for table in self.tables.iter() {
            if table.walk.reaches(vvbn) {
                return true;
            }
        }
        false
    }

    /// The steps of all its tables, and then those of its base table.
    pub fn all_steps(&self, alloc: Global) -> Result<Vec<Step>, AllocError> {
        let mut all = Vec::new(alloc);
        for table in self.tables.iter() {
            all.extend_from_slice(table.walk.steps.as_slice())?;
        }
        all.extend_from_slice(self.base.as_slice())?;
        Ok(all)
    }
}
