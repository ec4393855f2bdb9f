//! Sets of bytes, and how far it is in a run of bytes to the next one of a set:
//! sixteen bytes are looked at at once.
//!
//! [`front_outside`] takes the set as two tables, by the halves of a byte. The
//! definitions that its contract cites are in `specs/`.
#![tactic(auto)]

mod few;
mod front;
mod row;

pub use front::front_outside;
