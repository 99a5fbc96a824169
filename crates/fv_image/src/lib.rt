//! What an image of an aggregate is and means: definitions, and the laws that follow from them.
//!
//! The newer root, the map of a container, what is held, soundness, and the machine that an image stands
//! for are defined here once, in `specs/`, over the blocks that they name; `docs/FORMAT.md` says where those
//! lie. The crates that read or write images cite them. `proofs/` has the laws, above all that images which
//! agree on what they hold stand for the same machine. `fv_image_rows` has rows that the checker computes from
//! the definitions.
#![tactic(auto)]
