//! What a text is to who reads it: one list of bytes.
//!
//! [`Source`] is a text that is read by the byte or by stretches, [`Flat`] one whose bytes lie in a slice.
//! Where its bytes stand, in which line and column, is in `specs/Text`, how the meter of what is read rises
//! in `specs/Meter`. `shtext` has texts that are edited.
#![tactic(auto)]

mod source;

pub use source::{Flat, Source};
