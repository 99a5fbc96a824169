//! What every value of a type is, told where a proof needs it.
//!
//! Volume maps have an invariant, which their methods tell. A body that needs nothing else of such a method calls this: it does
//! nothing, and costs nothing.

ghost use Rattle.fv_volmap.specs.Slots.{IsVolume};

use fv_volmap::VolMap;

/// Each map of a volume is as long as its span, with no number past it. Costs nothing.
pub fn known_maps(maps: &VolMap)
    ensures { IsVolume maps.now }
{
    let _ = maps.active();
}
