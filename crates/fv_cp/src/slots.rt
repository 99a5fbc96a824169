//! What is known of the containers.

ghost use Rattle.fv_container.specs.Chains.{IsSlots};

use fv_container::Containers;

/// There are as many slots as volumes can have. It costs nothing: it is here so that a proof sees it.
#[tactic(auto)]
pub fn known_slots(containers: &Containers)
    ensures { IsSlots containers.now }
{
    containers.known_slots();
}
