//! Pass 2: the walks along the pointers of all roots, by the rules 1, 2, 4 and 5.

use crate::fault::Lines;
use crate::table::Tables;
use std::alloc::AllocError;

/// The lines of the pass.
pub fn second_pass(volumes: &[Tables], lines: &mut Lines) -> Result<(), AllocError> {
    for volume in volumes.iter() {
        for table in volume.tables.iter() {
            lines.add_all(&table.walk.lines)?;
        }
    }
    Ok(())
}
