//! Laws of the machine: what its definitions are proved to mean.
//!
//! The definitions of `fv_model` say what each command does and when it is refused. What holds of every run of them is
//! proved here once, so that each body that meets the definitions has it. A law is the contract of a function that does
//! nothing; `proofs/` has it as a lemma, too. What the laws cite stands in `specs/`.
#![tactic(auto)]

mod laws;
mod space;

pub use laws::{
    always_admitted, home_alone_decides, others_stay, refused_by_charge_alone,
    releases_raise_nothing, reserves_hold, stays_well_formed, the_least_free_number_is_taken,
};
pub use space::{
    a_change_adds_its_path, a_change_charges_its_path, charge_is_within_the_tables,
    ids_are_counted, no_volume_outgrows_its_size, positions_are_charged, removals_use_no_more,
    space_is_tried_last, use_does_not_rise,
};
