//! Calls of a volume's active table: taking it out of the volume, lending the volume's blocks to it, and putting it back. They are macros,
//! so that each call has its own words of what it lends.

/// What a call of a table that was taken out of a volume answers over the volume's blocks.
macro_rules! lend_table {
    ($files:ident, $volume:ident, |$pool:ident, $disk:ident| $call:ident($($given:expr),*)) => {{
        let home = fv_pool::Home {
            slot: $volume.slot,
            label: $volume.label,
        };
        $call::<std::marker::Brand, D, std::marker::Brand>(
            &mut $files,
            $pool,
            $disk,
            &mut $volume.map,
            &home,
            std::sync::ledger::Blank::new(1),
            $($given),*
        )
    }};
}

/// What a call of a volume's active table answers over the volume's blocks. The table is put back where it was in memory.
macro_rules! over_table {
    ($volume:ident, |$alloc:ident, $pool:ident, $disk:ident| $call:ident($($given:expr),*)) => {{
        let held = $volume.files.is_some();
        let mut files = fv_pool::take_table(&mut $volume.files, &$volume.active, $alloc);
        let answer = $crate::active::lend_table!(files, $volume, |$pool, $disk| $call($($given),*));
        $volume.files = fv_pool::kept_table(held, files);
        answer
    }};
}

/// What a call that changes a volume's active table answers over the volume's blocks. The table stays in memory, and the volume has
/// changed.
macro_rules! change_table {
    ($volume:ident, |$alloc:ident, $pool:ident, $disk:ident| $call:ident($($given:expr),*)) => {{
        let mut files = fv_pool::take_table(&mut $volume.files, &$volume.active, $alloc);
        let answer = $crate::active::lend_table!(files, $volume, |$pool, $disk| $call($($given),*));
        $volume.files = Some(files);
        $volume.changed = true;
        answer
    }};
}

pub(crate) use change_table;
pub(crate) use lend_table;
pub(crate) use over_table;
