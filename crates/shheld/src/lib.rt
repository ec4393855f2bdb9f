//! How the answers of a script follow from its lines, each of which is read and held as a script of its own.
//!
//! The definitions are in `specs/`: `TopLines` says what the lines are, `Walk` what a walk over them gathers.
//! That a script's entries, its first fault and its nodes follow from its lines is in `proofs/`.
#![tactic(auto)]

pub mod laws;
