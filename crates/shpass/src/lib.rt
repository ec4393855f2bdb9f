//! The lines of a script, passed one after the other. They are counted by nobody here: the reader (crate
//! `shread`) reads a whole script by them and counts it; who prints a script, or looks for its first fault
//! in parts, counts nothing. What a session is made of is given the reader alone.
//!
//! [`ScriptLines`] reads a script a line at a time, and [`faultless_front`] tells what of a part of a script
//! may be passed. How a line is read stands in the crate `shline`; what is read is told by the definitions
//! of the crate `shgrammar`.
#![tactic(auto)]

mod newline;
mod passable_front;
mod script_lines;

pub use newline::ends_in_newline;
pub use passable_front::faultless_front;
pub use script_lines::{LinesBefore, ScriptLines};
