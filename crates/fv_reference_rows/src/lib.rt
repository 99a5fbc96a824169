//! Rows that the checker computes from the definitions alone: numbers and lines of replies (`proofs/Computed.antt`), and a whole script
//! with its output (`proofs/Script.antt`). It has no code.
#![tactic(auto)]
