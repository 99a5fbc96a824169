//! Rows that the checker computes from the definition of fault lines (`fv_faults`): images with one field or bit changed, and the lines that
//! they have. It has no code.
#![tactic(auto)]
