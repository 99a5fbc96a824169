//! The numbers that follow from a volume's size and span.

ghost use Rattle.std.specs.Prelude.{◌≡◌, ◌≤◌, ◌<◌, ◌+◌, ◌/◌, IfSome, IfNone};
ghost use Rattle.fv_model.specs.Numbers.{greatest_span, most_overhead};
ghost use Rattle.fv_model.specs.Space.{nodes_above, overhead, span_of};

use fv_model::map_blocks;

/// The greatest span of a volume: it has as many VVBNs.
const GREATEST_SPAN: u64 = 1_048_576;

/// The VVBNs of a new volume of `size` blocks that stands on a base of `base_ids` blocks: the least multiple of 4096 that is at
/// least twice the size, the base and 256 together, and at least `at_least`, the span of its parent or source. `None` exactly where
/// it would pass 1,048,576. Costs a step and takes no memory.
pub fn span_of(size: u32, base_ids: u32, at_least: u32) -> Option<u32>
    ensures some { IfSome result (λ span. (span ≡ span_of size base_ids at_least) × (span ≤ greatest_span)) }
    ensures none { IfNone result (greatest_span < span_of size base_ids at_least) }
{
    let room = 2 * u64::from(size) + u64::from(base_ids) + 256;
    let span = 4096 * room.max(u64::from(at_least)).div_ceil(4096);
    if span <= GREATEST_SPAN {
        Some(span as u32)
    } else {
        None
    }
}

/// The blocks that a volume of this span, at most 1,048,576, needs beside its data: its label, its active map, and its container.
/// They are 4151 at most: of the greatest span the label, 32 blocks of the map, and 4100 leaves with 18 nodes over them. Costs a step and
/// takes no memory.
#[tactic(auto, unfolding(fv_model::specs::Space::overhead))]
pub fn overhead(span: u32) -> u32
    requires { span ≤ greatest_span }
    ensures exact { result ≡ overhead span }
    ensures most { result ≤ most_overhead }
{
    let map = map_blocks(span);
    let leaves = (span + 25 * map).div_ceil(256);
    1 + map + leaves + nodes_above(leaves)
}

/// The nodes of 256 entries above so many leaves, up to one root.
#[tactic(auto, unfolding(fv_model::specs::Space::nodes_above))]
fn nodes_above(leaves: u32) -> u32
    requires { leaves ≤ 65536 }
    ensures exact { result ≡ nodes_above 8 leaves }
    ensures most { result ≤ (leaves + 255) / 256 + 1 }
{
    if leaves <= 256 {
        1
    } else {
        leaves.div_ceil(256) + 1
    }
}
