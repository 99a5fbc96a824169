//! How many ids the base of a volume has.

ghost use Rattle.std.specs.Prelude.{◌≡◌};
ghost use Rattle.fv_third_pass.specs.Volumes.{base_set, counted};

use fv_codec::Label;
use fv_second_pass::Reached;

/// How many VVBNs the base table of the volume of a label reaches, by what all roots reach; none without a base. They are as many as the
/// base has ids, where the first two passes found nothing. Takes a step for each word of that set.
pub(crate) fn count_base_ids(reached: &Reached, label: &Label) -> u32
    ensures { result ≡ counted (base_set reached.now.volumes.items label.entry.now) }
{
    if label.parent == 0 {
        return 0;
    }
    match reached.of(label.parent - 1, label.base_slot) {
        Some(reach) => reach.count(),
        None => 0,
    }
}
