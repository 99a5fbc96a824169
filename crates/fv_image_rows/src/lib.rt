//! Rows that the checker computes from the definitions of images (`fv_image`): images that an independent implementation of the
//! format wrote, what they mean, and changes of one field or bit that a rule refuses. It has no code.
//!
//! `specs/` says soundness and the machine of images of empty volumes by tests of their own, which compute; `proofs/PlainImages.antt`
//! is the bridge to the definitions that all other crates cite.
#![tactic(auto)]
