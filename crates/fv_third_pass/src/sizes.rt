//! How many entries and nodes a container has.

ghost use Rattle.std.specs.Prelude.{◌≡◌, ◌≤◌, ◌^◌};
ghost use Rattle.fv_image.specs.Containers.{level_width};
ghost use Rattle.fv_image.specs.Views.{entry_count};

use fv_model::map_blocks;

/// How many entries the container of a volume of this span has.
pub fn entry_count(span: u32) -> usize
    ensures value { result ≡ entry_count span }
    ensures most { result ≤ 2 ^ 33 }
{
    span as usize + 25 * map_blocks(span) as usize
}

/// How many leaves such a container has.
pub(crate) fn leaf_count(span: u32) -> usize
    ensures { result ≡ level_width (entry_count span) 0 }
{
    entry_count(span).div_ceil(256)
}

/// How many inner nodes lead to its leaves.
pub(crate) fn middle_count(span: u32) -> usize
    ensures { result ≡ level_width (entry_count span) 1 }
{
    leaf_count(span).div_ceil(256).max(1)
}
