//! Scripts that are printed while they are read: a line at a time, and in pieces.
//!
//! Start with [`print_source`], which reads bytes and prints them; [`Printing`] does so in pieces,
//! and need hold of a script only what is not printed yet. What is said of it is in `specs/Printing`;
//! what is printed for a tree is said by the crate `shprint`.
#![tactic(auto)]

mod by_line;

pub use by_line::{PrintError, Printing, print_source};
