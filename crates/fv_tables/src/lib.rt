//! What the pointers of a tree and of a table spell, and what they reach: definitions, and the laws that follow from them.
//!
//! A tree and a table are told by functions of positions, over a map from VVBNs to blocks. The same definitions serve what
//! stands in an image's blocks and what a session holds in memory. The crates that read or write tables cite them.
#![tactic(auto)]
