//! The reader of shform: scripts of the Shell Command Language of POSIX, read line by line into a tree.
//!
//! Start with [`Reader`]: `read_line` reads one top-level line of a [`shsource::Source`], `read_script` all
//! of them, and `first_fault` looks for the first fault alone; each counts what it reads. How a line is read
//! stands in the crate `shline`, how a script is passed line by line in `shpass`. The tree is that of the
//! crate `shast`; [`Fault`] is what is wrong with a script. What is read is told by the definitions of the
//! crate `shgrammar`, what a call answers by `specs/Answers`.
#![tactic(auto)]

mod all_lines;
mod error;
mod first_fault;
pub mod laws;
mod one_line;
mod reader;

pub use error::ReadError;
pub use reader::{Line, LineKind, Reader};
pub use shgrammar::{Edition, Fault, FaultKind, Script};
