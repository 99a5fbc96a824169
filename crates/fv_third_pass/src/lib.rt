//! The third pass of a check: the fault lines (`fv_faults`) of held blocks, maps, kinds and tables.
#![tactic(auto)]

mod alone;
mod bases;
mod bits;
mod counting;
mod files;
mod holders;
mod ids;
mod judge;
mod lengths;
mod map;
mod nodes;
mod reaching;
mod roots;
mod sizes;
mod span;
mod survey;
mod tables;
mod third;
mod twice;
mod twins;
mod volume;
mod volume_map;
mod words;

pub use counting::count_holders;
pub use files::note_table_levels;
pub use holders::Holders;
pub use judge::{Walked, judge_table};
pub use map::note_map;
pub use roots::{MapRoot, roots_of};
pub use sizes::entry_count;
pub use span::note_span;
pub use survey::{Survey, VolumeSurvey};
pub use tables::note_table;
pub use third::{label_of, pass_three, row_of};
pub use twice::note_twice;
pub use volume::snap_table;
pub use volume_map::{VolumeMap, note_map_kinds, note_reach};
