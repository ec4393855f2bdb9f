//! The tests of sessions that refuse each growth of memory in turn, over the public calls of `shlive`. They
//! stand beside its other tests (`shlivetests`), which they use to open, edit and compare sessions, for the
//! time of proofs. The devices, the refused growths and the tables are those of the crate `shtreetests`.
//!
//! `session_refused` has edits, questions and requests, `session_blocks_refused` edits where lines stand in
//! more than one block of held lines.
#![tactic(auto)]

pub mod read_at_most;
#[cfg(test)]
mod session_blocks_refused;
#[cfg(test)]
mod session_refused;
